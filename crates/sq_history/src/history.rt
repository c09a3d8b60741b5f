// A history that only proofs read.
ghost use Rattle.std.specs.Prelude.{◌≡◌, List, [], ◌∷◌, ◌++◌};
ghost use Rattle.std.specs.Borrow.{ftrue};

use std::fmt::{self, Debug, Formatter, Write};
use std::marker::{Model, PhantomData};

/// A history that only proofs read: a clause reads what was added as `items`.
#[derive(Drop)]
pub struct History<A> {
    of: PhantomData<A>,
    pub ghost items: { List A },
}

impl<A> Model for History<A> {
    ghost also_owns = { λ _. ftrue };
}

// It owns nothing.
unsafe impl<A: Send> Send for History<A> {}

unsafe impl<A: Send + Sync> Sync for History<A> {}

impl<A> History<A> {
    /// Nothing was added.
    pub fn new() -> History<A>
        ensures { result.items ≡ [] }
    {
        History { of: PhantomData }
    }

    /// Returns a copy of this history.
    pub fn copy(&self) -> History<A>
        ensures { result.items ≡ self.now.items }
    {
        History { of: PhantomData }
    }

    /// This history with all of another after it.
    pub fn before(&self, later: &History<A>) -> History<A>
        ensures { result.items ≡ self.now.items ++ later.now.items }
    {
        History { of: PhantomData }
    }

    /// This history with one more.
    pub fn and(&self, next: &A) -> History<A>
        ensures { result.items ≡ self.now.items ++ next.now ∷ [] }
    {
        History { of: PhantomData }
    }
}

impl<A> Debug for History<A> {
    fn fmt<W: Write>(&self, f: &mut Formatter<W>) -> fmt::Result {
        f.write_str("History")
    }
}
