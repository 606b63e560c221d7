use beam_values::{Cause, NoMemory};

/// Why work was not done.
#[derive(Clone, Copy, Debug, PartialEq, Eq)]
pub enum ExecRefusal {
    /// The function of the node `at` failed, or a read of its file.
    Faulted { at: u32, cause: Cause },
    NoMemory,
}

impl From<NoMemory> for ExecRefusal {
    ghost use Rattle.std.specs.Prelude.{◌≡◌};
    ghost use Rattle.chain_exec.specs.declared.refusal.ExecRefusal.TheVariants as refusal;

    ghost from_gives = { λ _ e. e ≡ refusal.NoMemory };

    fn from(_e: NoMemory) -> ExecRefusal {
        ExecRefusal::NoMemory
    }
}
