ghost use Rattle.std.specs.Prelude.{◌≡◌, ◌≤◌, true};
ghost use Rattle.beam_values.specs.Checked.{is_source_argument};
ghost use Rattle.beam_values.specs.declared.plan.SourceKind.{SourceKind};
ghost use Rattle.dofn_traits.specs.Calls.{IsView};
ghost use Rattle.sdf_library.specs.Sources.{Tells, seen, counted};

use beam_values::{Args, SourceKind};
use dofn_traits::{CallRefusal, Emission, Found, SplittableFn};
use std::alloc::Global;
use std::marker::{Model, PhantomData};

/// What a source does at a position, without its count.
pub trait PositionWork {
    /// Which source it is.
    ghost work: { SourceKind };

    fn kind() -> SourceKind
        ensures { result ≡ work };

    /// Adds what the position emits and answers the one after it; or asks for more bytes, or fails where
    /// the position is poison.
    fn tell(
        alloc: Global,
        args: &Args,
        bytes: &[u8],
        base: u64,
        len: u64,
        p: u64,
        out: &mut Emission,
    ) -> Result<Found, CallRefusal>
        requires allowed { is_source_argument work args.now ≡ true }
        requires view { IsView work args.now bytes.now base len p }
        ensures { Tells (seen work args.now bytes.now base len p) out.old out.new result };
}

/// The object of a source that fails on poison alone. Contracts see how often it failed.
#[derive(Drop)]
pub struct Strict<W> {
    alloc: Global,
    faults: u64,
    work: PhantomData<W>,
}

impl<W> Model for Strict<W> {
    ghost use Rattle.std.specs.Prelude.{ℕ};

    ghost Value = { ℕ };

    ghost view = { λ object. object.faults };
}

impl<W> Strict<W> {
    /// Takes no memory. What its calls need they take from `alloc`.
    pub fn new(alloc: Global) -> Strict<W>
        ensures { result ≡ 0 }
    {
        Strict {
            alloc,
            faults: 0,
            work: PhantomData,
        }
    }

    /// How often it failed: once for each call on poison. The count stays at the greatest number of
    /// 64 bits once it is there.
    pub fn faults(&self) -> u64
        ensures { result ≡ self.now }
    {
        self.faults
    }

    fn count(&mut self, answer: Result<Found, CallRefusal>)
        ensures counts { self.new ≡ counted self.old answer }
        ensures rises { self.old ≤ self.new }
    {
        if let Err(CallRefusal::Failed) = answer {
            self.faults = self.faults.saturating_add(1);
        }
    }
}

impl<W: PositionWork + Send + Drop> SplittableFn for Strict<W> {
    ghost work = { λ _. W.work };

    ghost faults = { λ object. object };

    ghost strict = { λ _. true };

    fn kind(&self) -> SourceKind {
        W::kind()
    }

    fn call(
        &mut self,
        args: &Args,
        bytes: &[u8],
        base: u64,
        len: u64,
        p: u64,
        out: &mut Emission,
    ) -> Result<Found, CallRefusal>
        requires allowed { is_source_argument W.work args.now ≡ true }
        requires view { IsView W.work args.now bytes.now base len p }
        ensures tells { Tells (seen W.work args.now bytes.now base len p) out.old out.new result }
        ensures counts { self.new ≡ counted self.old result }
        ensures rises { self.old ≤ self.new }
    {
        let answer = W::tell(self.alloc, args, bytes, base, len, p, out);
        self.count(answer);
        answer
    }
}
