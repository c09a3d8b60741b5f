// The keys by which tables are partitioned.
ghost use Rattle.std.specs.Prelude.{◌≡◌, ◌<◌, ◌^◌};
ghost use Rattle.std.specs.Option.{SomeIff};

use std::marker::Model;

/// The bound of root keys: each is a whole number below it.
pub const ROOT_END: u64 = 4_294_967_296;

/// A root key. To a contract it is its number.
#[derive(Clone, Copy, Debug, PartialEq, Eq, PartialOrd, Ord)]
pub struct Root(u32);

impl Model for Root {
    ghost use Rattle.std.specs.Prelude.{ℕ};

    ghost Value = { ℕ };

    ghost view = { λ r. r.0 };

    ghost inverse = { λ n. record { 0 = n } };
}

impl Root {
    /// Returns the root key with the number `key`; `None` if that is [`ROOT_END`] or more.
    pub fn new(key: u64) -> Option<Root>
        ensures { SomeIff result (key < ROOT_END) key }
    {
        match u32::try_from(key) {
            Ok(key) => Some(Root(key)),
            Err(_) => None,
        }
    }

    /// Returns the number, below [`ROOT_END`].
    pub fn number(self) -> u64
        ensures number { result ≡ self }
        ensures bound { result < ROOT_END }
    {
        u64::from(self.0)
    }
}
