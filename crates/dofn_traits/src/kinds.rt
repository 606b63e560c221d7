//! All kinds of functions, sources and functions with state. The number of a kind is its place among them, which
//! its declaration gives: a kind's box is found by it with no search and no test.

ghost use Rattle.std.specs.Prelude.{◌≡◌, ◌<◌, length};
ghost use Rattle.dofn_traits.specs.Shelves.{fn_kinds, source_kinds, state_kinds};
ghost use Rattle.dofn_traits.specs.Shelves.{fn_number, source_number, state_number};

use beam_values::{FnKind, SourceKind, StateKind};

/// In the order in which they are declared, as the others are.
pub const FN_KINDS: &[FnKind] = &[
    FnKind::KeyField,
    FnKind::Words,
    FnKind::Field,
    FnKind::KeepPrefix,
    FnKind::FieldInt,
    FnKind::Swap,
    FnKind::Shift,
    FnKind::SumSeq,
    FnKind::CountSeq,
    FnKind::MaxSeq,
    FnKind::Unseq,
    FnKind::Values,
    FnKind::Tag,
    FnKind::JoinList,
    FnKind::JoinSingle,
    FnKind::JoinLookup,
];

pub const SOURCE_KINDS: &[SourceKind] = &[
    SourceKind::Lines,
    SourceKind::TimedLines,
    SourceKind::Count,
    SourceKind::Made,
];

pub const STATE_KINDS: &[StateKind] = &[
    StateKind::Dedupe,
    StateKind::RunningSum,
    StateKind::BatchUntil,
    StateKind::LatestThenEmit,
];

/// The place of a kind in its list.
pub fn fn_number(kind: FnKind) -> usize
    ensures value { result ≡ fn_number kind }
    ensures within { result < length fn_kinds }
{
    kind as usize
}

pub fn source_number(kind: SourceKind) -> usize
    ensures value { result ≡ source_number kind }
    ensures within { result < length source_kinds }
{
    kind as usize
}

pub fn state_number(kind: StateKind) -> usize
    ensures value { result ≡ state_number kind }
    ensures within { result < length state_kinds }
{
    kind as usize
}
