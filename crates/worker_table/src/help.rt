//! What an idle slot found to split.
ghost use Rattle.worker_table.specs.Calls.{IsHelpAnswer};

use beam_values::NoMemory;

#[derive(Clone, Copy, Debug)]
pub enum Help {
    Nobody,
    /// The range of that slot was split there.
    Cut { other: u32, at: u64 },
    /// There was no memory to split the range of that slot.
    Refused { other: u32 },
}

impl Help {
    /// Where a range was split, or none where there was none to split.
    pub fn cut_at(self) -> Result<Option<u64>, NoMemory>
        ensures { IsHelpAnswer self result }
    {
        match self {
            Help::Nobody => Ok(None),
            Help::Cut { at, .. } => Ok(Some(at)),
            Help::Refused { .. } => Err(NoMemory),
        }
    }
}
