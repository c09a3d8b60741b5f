// A value that only proofs read.
ghost use Rattle.std.specs.Prelude.{◌≡◌};
ghost use Rattle.std.specs.Borrow.{ftrue};

use std::marker::{Model, PhantomData};

/// A value that only proofs read, as `value`.
#[derive(Drop)]
pub struct Kept<A> {
    of: PhantomData<A>,
    pub ghost value: { A },
}

impl<A> Model for Kept<A> {
    ghost also_owns = { λ _. ftrue };
}

// It owns nothing.
unsafe impl<A: Send> Send for Kept<A> {}

unsafe impl<A: Send + Sync> Sync for Kept<A> {}

impl<A> Kept<A> {
    /// This value.
    pub fn of(value: &A) -> Kept<A>
        ensures { result.value ≡ value.now }
    {
        Kept { of: PhantomData }
    }
}
