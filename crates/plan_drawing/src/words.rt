ghost use Rattle.std.specs.Prelude.{◌≡◌};
ghost use Rattle.plan_drawing.specs.Words.{function_word, mode_word, source_word, state_word};

use beam_values::{FnKind, Mode, SourceKind, StateKind};

pub(crate) fn source_word(work: SourceKind) -> &'static [u8]
    ensures { result.now ≡ source_word work }
{
    match work {
        SourceKind::Lines => b"Lines",
        SourceKind::TimedLines => b"TimedLines",
        SourceKind::Count => b"Count",
        SourceKind::Made => b"Made",
    }
}

pub(crate) fn function_word(work: FnKind) -> &'static [u8]
    ensures { result.now ≡ function_word work }
{
    match work {
        FnKind::KeyField => b"KeyField",
        FnKind::Words => b"Words",
        FnKind::Field => b"Field",
        FnKind::KeepPrefix => b"KeepPrefix",
        FnKind::FieldInt => b"FieldInt",
        FnKind::Swap => b"Swap",
        FnKind::Shift => b"Shift",
        FnKind::SumSeq => b"SumSeq",
        FnKind::CountSeq => b"CountSeq",
        FnKind::MaxSeq => b"MaxSeq",
        FnKind::Unseq => b"Unseq",
        FnKind::Values => b"Values",
        FnKind::Tag => b"Tag",
        FnKind::JoinList => b"JoinList",
        FnKind::JoinSingle => b"JoinSingle",
        FnKind::JoinLookup => b"JoinLookup",
    }
}

pub(crate) fn state_word(work: StateKind) -> &'static [u8]
    ensures { result.now ≡ state_word work }
{
    match work {
        StateKind::Dedupe => b"Dedupe",
        StateKind::RunningSum => b"RunningSum",
        StateKind::BatchUntil => b"BatchUntil",
        StateKind::LatestThenEmit => b"LatestThenEmit",
    }
}

pub(crate) fn mode_word(mode: Mode) -> &'static [u8]
    ensures { result.now ≡ mode_word mode }
{
    match mode {
        Mode::Discarding => b"discarding",
        Mode::Accumulating => b"accumulating",
    }
}
