ghost use Rattle.std.specs.Prelude.{◌≡◌};

use beam_values::Cause;

/// How many jobs a worker has failed, by the cause of the fault. A count stays at 2^64 - 1 once it is there.
#[derive(Clone, Copy, Debug, PartialEq, Eq)]
pub struct FaultShare {
    pub calls: u64,
    pub reads: u64,
}

impl FaultShare {
    ghost use Rattle.retry_core.specs.Shares.{share_after};

    /// No fault was counted yet.
    pub fn new() -> FaultShare
        ensures { result ≡ record { calls = 0; reads = 0 } }
    {
        FaultShare { calls: 0, reads: 0 }
    }

    /// Counts `n` more faults of this cause.
    pub fn rise(&mut self, cause: Cause, n: u64)
        ensures { self.new ≡ share_after self.old cause n }
    {
        match cause {
            Cause::Call => self.calls = self.calls.saturating_add(n),
            Cause::Read => self.reads = self.reads.saturating_add(n),
        }
    }
}
