ghost use Rattle.std.specs.Prelude.{◌≡◌, ◌<◌, ◌≤◌, ℕ, Bool, true, List, Option, length, take};
ghost use Rattle.std.specs.Prelude.{IfOk, OnErr};
ghost use Rattle.beam_ports.specs.Counts.{Rose};
ghost use Rattle.beam_ports.specs.Exact.{after_answer};
ghost use Rattle.beam_ports.specs.Sinks.{count_of, then_taken};

use crate::Failed;

/// Where text is written to.
pub trait Sink {
    /// How often the sink has failed.
    ghost faults: { Self → ℕ };

    /// Whether that count rises by one at each failed write, and at no other.
    ghost counts_exactly: { Bool };

    /// All that was taken, where the sink tells it.
    ghost taken: { Self → Option (List ℕ) };

    /// Takes some bytes from the front, at least one, and says how many; or fails and takes none.
    fn write(&mut self, bytes: &[u8]) -> Result<usize, Failed>
        requires { 0 < length bytes.now }
        ensures some { IfOk result (λ n. 0 < n) }
        ensures fits { IfOk result (λ n. n ≤ length bytes.now) }
        ensures taken { taken self.new
            ≡ then_taken (taken self.old) (take (count_of result) bytes.now) }
        ensures counts { faults self.old ≤ faults self.new }
        ensures failed { OnErr result (Rose (faults self.old) (faults self.new)) }
        ensures exact { counts_exactly ≡ true
            → faults self.new ≡ after_answer (faults self.old) result };
}
