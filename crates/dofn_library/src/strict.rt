ghost use Rattle.std.specs.Prelude.{◌≡◌, ◌≤◌};
ghost use Rattle.dofn_library.specs.Answers.{counted};

use crate::SharedKeys;
use dofn_traits::CallRefusal;
use std::alloc::Global;
use std::marker::{Model, PhantomData};

/// The object of a function that fails on poison alone. Contracts see how often it failed.
#[derive(Drop)]
pub struct Strict<W> {
    pub(crate) alloc: Global,
    pub(crate) keys: SharedKeys,
    faults: u64,
    work: PhantomData<W>,
}

impl<W> Model for Strict<W> {
    ghost use Rattle.std.specs.Prelude.{ℕ};

    ghost Value = { ℕ };

    ghost view = { λ object. object.faults };
}

impl<W> Strict<W> {
    /// Takes no memory. What its calls need they take from `alloc`.
    pub fn new(alloc: Global) -> Strict<W>
        ensures { result ≡ 0 }
    {
        Strict {
            alloc,
            keys: SharedKeys::new(alloc),
            faults: 0,
            work: PhantomData,
        }
    }

    /// How often it failed: once for each call on poison. The count stays at the greatest number of
    /// 64 bits once it is there.
    pub fn faults(&self) -> u64
        ensures { result ≡ self.now }
    {
        self.faults
    }

    pub(crate) fn count(&mut self, answer: Result<(), CallRefusal>)
        ensures counts { self.new ≡ counted self.old answer }
        ensures rises { self.old ≤ self.new }
    {
        if let Err(CallRefusal::Failed) = answer {
            self.faults = self.faults.saturating_add(1);
        }
    }
}
