ghost use Rattle.std.specs.Prelude.{◌≡◌, IfOk};
ghost use Rattle.std.specs.Arc.{arc_value};

use crate::NoMemory;
use std::alloc::Global;
use std::marker::Model;
use std::sync::Arc;

/// A value behind a pointer, that contracts see as the value. Shares of it, in any threads, have one
/// place in memory, so none can change it.
#[derive(Debug, Drop)]
pub struct Boxed<T> {
    inner: Arc<T>,
}

impl<T> Model for Boxed<T> {
    ghost Value = { T };

    ghost coded = { T.code };

    ghost view = { λ b. b.inner.value };
}

impl<T> Boxed<T> {
    /// The value, which all shares have in common.
    pub fn get(&self) -> &T
        ensures { result.now ≡ self.now }
    {
        &self.inner
    }

    /// Takes no memory. It is refused only where there are 2^63 - 1 shares.
    pub fn share(&self) -> Result<Boxed<T>, NoMemory>
        ensures { IfOk result (λ b. b ≡ self.now) }
    {
        Ok(Boxed {
            inner: Arc::try_clone(&self.inner)?,
        })
    }
}

impl<T: Drop> Boxed<T> {
    /// Moves the value to a place of its own in memory.
    pub fn new(alloc: Global, value: T) -> Result<Boxed<T>, NoMemory>
        ensures { IfOk result (λ b. b ≡ value) }
    {
        Ok(Boxed {
            inner: Arc::new(alloc, value)?,
        })
    }
}
