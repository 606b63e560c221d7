// A value that clauses alone read.
ghost use Rattle.std.specs.Prelude.{◌≡◌};
ghost use base.Fml.{ftrue};

use std::marker::{Model, PhantomData};

/// A value that contracts alone see. It has no bytes, and is whatever its maker's proof picks.
#[derive(Drop)]
pub struct Unseen<T> {
    marker: PhantomData<T>,
    pub ghost value: { T },
}

impl<T> Model for Unseen<T> {
    ghost also_owns = { λ _. ftrue };
}

impl<T> Unseen<T> {
    /// The proof at the call picks `shown`.
    pub fn of() -> Unseen<T>
        ghost shown: { T }
        ensures { result.value ≡ shown }
    {
        Unseen {
            marker: PhantomData,
        }
    }
}

unsafe impl<T> Send for Unseen<T> {}

unsafe impl<T> Sync for Unseen<T> {}
