use beam_values::{FaultNote, NoMemory};
use chain_exec::ExecRefusal;
use combine_lift::LiftRefusal;

/// Why nothing was combined.
#[derive(Clone, Copy, Debug, PartialEq, Eq)]
pub enum CombineRefusal {
    Lift(LiftRefusal),
    /// A job failed as often as it may.
    Fault(FaultNote),
    NoMemory,
}

impl From<NoMemory> for CombineRefusal {
    ghost use Rattle.std.specs.Prelude.{◌≡◌};
    ghost use Rattle.combine_plan.specs.declared.refusal.CombineRefusal.TheVariants as refusal;

    ghost from_gives = { λ _ e. e ≡ refusal.NoMemory };

    fn from(_e: NoMemory) -> CombineRefusal {
        CombineRefusal::NoMemory
    }
}
