ghost use Rattle.std.specs.Prelude.{◌≡◌, ◌≤◌, ℕ, Bool, true, List, Option, Some, length, drop};
ghost use Rattle.std.specs.Prelude.{IsSome, IsSomeAnd, IsErrOf, IfOk, OnErr};
ghost use Rattle.beam_ports.specs.Counts.{Rose};
ghost use Rattle.beam_ports.specs.Exact.{after_answer, after_opening};
ghost use Rattle.beam_ports.specs.Files.{Opening, KeepsOpenings, OpensText, IsRead};
ghost use Rattle.beam_values.specs.Files.{first_named};
ghost use Rattle.beam_values.specs.declared.file_text.FileText.{FileText};

use crate::{Failed, OpenRefusal};

/// A file that was opened: its number at the store, and its length in bytes.
#[derive(Clone, Copy, Debug, PartialEq, Eq)]
pub struct Opened {
    pub file: u32,
    pub len: u64,
}

/// Where files are opened by name and read by position.
pub trait Store: Send {
    /// How often the store has failed.
    ghost faults: { Self → ℕ };

    /// Whether that count rises by one at each failed call, and at no other.
    ghost counts_exactly: { Bool };

    /// The files, where the store tells them.
    ghost files: { Self → Option (List FileText) };

    /// The files that were opened, by their numbers.
    ghost opened: { Self → ℕ → Option Opening };

    /// Opens the first file of that name. Its number stays good for all later reads.
    fn open_file(&mut self, name: &[u8]) -> Result<Opened, OpenRefusal>
        ensures told { files self.new ≡ files self.old }
        ensures kept { KeepsOpenings (opened self.old) (opened self.new) }
        ensures counts { faults self.old ≤ faults self.new }
        ensures failed { IsErrOf result OpenRefusal.Failed
            → Rose (faults self.old) (faults self.new) }
        ensures exact { counts_exactly ≡ true
            → faults self.new ≡ after_opening (faults self.old) result }
        ensures absent { IsErrOf result OpenRefusal.Absent → (told : List FileText)
            → files self.old ≡ Some told → first_named name.now told ≡ None }
        ensures has_length { IfOk result
            (λ o. IsSomeAnd (opened self.new o.file) (λ opening. opening.len ≡ o.len)) }
        ensures first { IfOk result (λ o. (told : List FileText) → files self.old ≡ Some told
            → OpensText (first_named name.now told) o.len (opened self.new o.file)) };

    /// Reads into the front of `buf`. Fewer bytes than there are may come, and 0 only at the end of the
    /// file or for an empty `buf`. After `Failed` nothing is said of the bytes in `buf`, so that a store
    /// may read straight into it.
    fn read_at(&mut self, file: u32, at: u64, buf: &mut [u8]) -> Result<usize, Failed>
        requires { IsSome (opened self.old file) }
        ensures told { files self.new ≡ files self.old }
        ensures kept { KeepsOpenings (opened self.old) (opened self.new) }
        ensures counts { faults self.old ≤ faults self.new }
        ensures failed { OnErr result (Rose (faults self.old) (faults self.new)) }
        ensures exact { counts_exactly ≡ true
            → faults self.new ≡ after_answer (faults self.old) result }
        ensures fits { IfOk result (λ n. n ≤ length buf.old) }
        ensures rest { IfOk result (λ n. drop n buf.new ≡ drop n buf.old) }
        ensures read { IfOk result (λ n. (opening : Opening)
            → opened self.old file ≡ Some opening → IsRead opening at n buf.new) };
}
