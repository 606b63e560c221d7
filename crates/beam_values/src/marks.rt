use crate::Mark;
use beam_containers::{Boxed, Duplicate, List, NoMemory};
use std::alloc::Global;

/// The watermarks of a node: before it and after it.
#[derive(Clone, Copy, Debug, PartialEq, Eq)]
pub struct StageMarks {
    pub mark_in: Mark,
    pub mark_out: Mark,
}

impl Duplicate for StageMarks {
    fn duplicate(&self, _alloc: Global) -> Result<StageMarks, NoMemory> {
        Ok(*self)
    }
}

/// The watermarks of all nodes after a commit. Commits that follow one another and change no mark share them.
#[derive(Debug, Drop)]
pub struct CommitMarks {
    pub marks: Boxed<List<StageMarks>>,
}

impl Duplicate for CommitMarks {
    fn duplicate(&self, _alloc: Global) -> Result<CommitMarks, NoMemory> {
        Ok(CommitMarks {
            marks: self.marks.share()?,
        })
    }
}
