use crate::{FaultNote, Range, Time};

/// A source item and its length: bytes of a file, or how many elements are counted or made.
#[derive(Clone, Copy, Debug, PartialEq, Eq)]
pub struct FileLen {
    pub node: u32,
    pub item: u32,
    pub len: u64,
}

/// An uncommitted part of a source item.
#[derive(Clone, Copy, Debug, PartialEq, Eq)]
pub struct Piece {
    pub node: u32,
    pub item: u32,
    pub range: Range,
    /// The greatest time or declared mark of what was committed before it, as its estimator takes it.
    pub seen: Time,
    /// How often its work failed.
    pub attempts: u32,
    /// Of a single position that failed as often as it may: how. It is not worked again, and its commit sets it aside.
    pub spent: Option<FaultNote>,
}

/// A position of a source item that was set aside, since its work failed as often as it may.
#[derive(Clone, Copy, Debug, PartialEq, Eq)]
pub struct Dead {
    pub node: u32,
    pub item: u32,
    /// The position, an offset in the item.
    pub at: u64,
    /// The last of these failures.
    pub note: FaultNote,
}

/// A range of a source item that was committed.
#[derive(Clone, Copy, Debug, PartialEq, Eq)]
pub struct Done {
    pub node: u32,
    pub item: u32,
    pub range: Range,
}
