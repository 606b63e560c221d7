ghost use Rattle.std.specs.Prelude.{◌≡◌};
ghost use Rattle.plan_reader.specs.Words.{meaning_in, kind_meaning, kinds, sources, functions};
ghost use Rattle.plan_reader.specs.Words.{stateful_functions, estimators, modes, view_modes};

use beam_values::{Estimator, FnKind, Mode, SourceKind, StateKind};
use side_inputs::ViewMode;

/// What a node is, before its settings are read.
#[derive(Clone, Copy, Debug, PartialEq, Eq)]
pub(crate) enum KindWord {
    Source,
    ParDo,
    Flatten,
    Window,
    Group,
    Stateful,
    Write,
}

/// What a node of a document is.
#[derive(Clone, Copy, Debug, PartialEq, Eq)]
pub(crate) enum DocumentKind {
    /// One node of the plan.
    Plain(KindWord),
    /// A side input, which is five.
    Side,
}

/// Documents have side inputs from version 3 on.
pub(crate) fn document_kind(version: u32, word: &str) -> Option<DocumentKind>
    ensures { result ≡ kind_meaning version word.now }
{
    if version >= 3 && word == "side" {
        return Some(DocumentKind::Side);
    }
    kind_word(word).map(DocumentKind::Plain)
}

fn kind_word(word: &str) -> Option<KindWord>
    ensures { result ≡ meaning_in kinds word.now }
{
    match word {
        "source" => Some(KindWord::Source),
        "pardo" => Some(KindWord::ParDo),
        "flatten" => Some(KindWord::Flatten),
        "window" => Some(KindWord::Window),
        "group" => Some(KindWord::Group),
        "stateful" => Some(KindWord::Stateful),
        "write" => Some(KindWord::Write),
        _ => None,
    }
}

pub(crate) fn view_mode_word(word: &str) -> Option<ViewMode>
    ensures { result ≡ meaning_in view_modes word.now }
{
    match word {
        "list" => Some(ViewMode::List),
        "single" => Some(ViewMode::Single),
        "lookup" => Some(ViewMode::Lookup),
        _ => None,
    }
}

pub(crate) fn source_word(word: &str) -> Option<SourceKind>
    ensures { result ≡ meaning_in sources word.now }
{
    match word {
        "Lines" => Some(SourceKind::Lines),
        "TimedLines" => Some(SourceKind::TimedLines),
        "Count" => Some(SourceKind::Count),
        "Made" => Some(SourceKind::Made),
        _ => None,
    }
}

pub(crate) fn function_word(word: &str) -> Option<FnKind>
    ensures { result ≡ meaning_in functions word.now }
{
    match word {
        "KeyField" => Some(FnKind::KeyField),
        "Words" => Some(FnKind::Words),
        "Field" => Some(FnKind::Field),
        "KeepPrefix" => Some(FnKind::KeepPrefix),
        "FieldInt" => Some(FnKind::FieldInt),
        "Swap" => Some(FnKind::Swap),
        "Shift" => Some(FnKind::Shift),
        "SumSeq" => Some(FnKind::SumSeq),
        "CountSeq" => Some(FnKind::CountSeq),
        "MaxSeq" => Some(FnKind::MaxSeq),
        "Unseq" => Some(FnKind::Unseq),
        "Values" => Some(FnKind::Values),
        _ => None,
    }
}

pub(crate) fn state_word(word: &str) -> Option<StateKind>
    ensures { result ≡ meaning_in stateful_functions word.now }
{
    match word {
        "Dedupe" => Some(StateKind::Dedupe),
        "RunningSum" => Some(StateKind::RunningSum),
        "BatchUntil" => Some(StateKind::BatchUntil),
        "LatestThenEmit" => Some(StateKind::LatestThenEmit),
        _ => None,
    }
}

pub(crate) fn estimator_word(word: &str) -> Option<Estimator>
    ensures { result ≡ meaning_in estimators word.now }
{
    match word {
        "none" => Some(Estimator::None),
        "monotonic" => Some(Estimator::Monotonic),
        "declared" => Some(Estimator::Declared),
        _ => None,
    }
}

pub(crate) fn mode_word(word: &str) -> Option<Mode>
    ensures { result ≡ meaning_in modes word.now }
{
    match word {
        "discarding" => Some(Mode::Discarding),
        "accumulating" => Some(Mode::Accumulating),
        _ => None,
    }
}
