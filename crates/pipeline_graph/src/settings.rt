ghost use Rattle.std.specs.Prelude.{◌≡◌, ◌≤◌};
ghost use Rattle.std.specs.List.{list_all};
ghost use Rattle.beam_values.specs.Checked.{are_files, is_early_allowed, is_estimator_allowed};
ghost use Rattle.beam_values.specs.Checked.{is_file_name, is_function_allowed, is_no_file};
ghost use Rattle.beam_values.specs.Checked.{is_nothing, is_number_upto, is_source_allowed};
ghost use Rattle.beam_values.specs.Checked.{is_state_allowed, is_text_upto, is_trigger_allowed};
ghost use Rattle.beam_values.specs.Checked.{is_two_upto};
ghost use Rattle.beam_values.specs.Strategies.{is_allowed};

use crate::bars::{are_early_bars, are_late_bars};
use beam_values::{Args, Bytes, Estimator, FnKind, SourceKind, StateKind, Strategy, Trigger};
use windowing::{GREATEST_LENGTH, check_strategy};

/// The greatest number of files of all sources of a plan together.
pub const MOST_FILES: usize = 256;

/// The greatest number of bytes of a file's name.
pub const LONGEST_FILE_NAME: usize = 4096;

/// The greatest number of bytes of a prefix.
pub const LONGEST_PREFIX: usize = 4096;

/// The greatest number of the field that a function takes.
pub const GREATEST_FIELD: i64 = 1000;

/// The greatest number of values of a batch.
pub const GREATEST_BATCH: i64 = 1_000_000;

/// The tag of a value of the main input; that of a value of the view is 0.
pub const GREATEST_TAG: i64 = 1;

/// The greatest count of a source of numbers.
pub const GREATEST_COUNT: u64 = 1_000_000_000;

/// The greatest step between the times of its numbers, in milliseconds.
pub const GREATEST_STEP: u64 = 1_000_000;

/// The greatest count and the greatest number of a source of made-up lines.
pub const GREATEST_MADE: u64 = 1_000_000;

/// Whether a source takes these arguments and files, where the sources before it read `earlier` files.
pub(crate) fn is_source_allowed(
    earlier: usize,
    work: &SourceKind,
    args: &Args,
    files: &[Bytes],
) -> bool
    requires { earlier ≤ 256 }
    ensures { result ≡ is_source_allowed earlier work.now args.now files.now }
{
    match work {
        SourceKind::Lines | SourceKind::TimedLines => is_nothing(args) && are_files(earlier, files),
        SourceKind::Count => is_two_up_to(GREATEST_COUNT, GREATEST_STEP, args) && is_no_file(files),
        SourceKind::Made => is_two_up_to(GREATEST_MADE, GREATEST_MADE, args) && is_no_file(files),
    }
}

fn are_files(earlier: usize, names: &[Bytes]) -> bool
    requires { earlier ≤ 256 }
    ensures { result ≡ are_files earlier names.now }
{
    1 <= names.len() && all_are_names(names) && names.len() <= MOST_FILES - earlier
}

fn all_are_names(names: &[Bytes]) -> bool
    ensures { result ≡ list_all is_file_name names.now }
{
    names.iter().all(is_file_name)
}

fn is_file_name(name: &Bytes) -> bool
    ensures { result ≡ is_file_name name.now }
{
    1 <= name.len() && name.len() <= LONGEST_FILE_NAME
}

fn is_no_file(names: &[Bytes]) -> bool
    ensures { result ≡ is_no_file names.now }
{
    names.is_empty()
}

pub(crate) fn is_estimator_allowed(estimator: &Estimator) -> bool
    ensures { result ≡ is_estimator_allowed estimator.now }
{
    match estimator {
        Estimator::Lag(delay) => 0 <= *delay && *delay <= GREATEST_LENGTH,
        _ => true,
    }
}

pub(crate) fn is_function_allowed(work: &FnKind, args: &Args) -> bool
    ensures { result ≡ is_function_allowed work.now args.now }
{
    match work {
        FnKind::Field => is_number_up_to(GREATEST_FIELD, args),
        FnKind::KeepPrefix => is_text_up_to(LONGEST_PREFIX, args),
        FnKind::Shift => is_number_up_to(GREATEST_LENGTH, args),
        FnKind::Tag => is_number_up_to(GREATEST_TAG, args),
        _ => is_nothing(args),
    }
}

pub(crate) fn is_state_allowed(work: &StateKind, args: &Args) -> bool
    ensures { result ≡ is_state_allowed work.now args.now }
{
    match work {
        StateKind::BatchUntil => is_number_up_to(GREATEST_BATCH, args) && !is_number_up_to(0, args),
        StateKind::LatestThenEmit => is_number_up_to(GREATEST_LENGTH, args),
        _ => is_nothing(args),
    }
}

pub(crate) fn is_strategy_allowed(strategy: &Strategy) -> bool
    ensures { result ≡ is_allowed strategy.now }
{
    check_strategy(strategy).is_ok()
}

pub(crate) fn is_trigger_allowed(trigger: &Trigger) -> bool
    ensures { result ≡ is_trigger_allowed trigger.now }
{
    is_early_allowed(trigger.early)
        && 1 <= trigger.late
        && 0 <= trigger.lateness
        && trigger.lateness <= GREATEST_LENGTH
        && are_early_bars(trigger.early_bars.as_slice())
        && are_late_bars(trigger.late_bars.as_slice())
}

fn is_early_allowed(early: Option<u32>) -> bool
    ensures { result ≡ is_early_allowed early }
{
    match early {
        None => true,
        Some(count) => 1 <= count,
    }
}

fn is_nothing(args: &Args) -> bool
    ensures { result ≡ is_nothing args.now }
{
    matches!(args, Args::Nothing)
}

fn is_number_up_to(most: i64, args: &Args) -> bool
    ensures { result ≡ is_number_upto most args.now }
{
    match args {
        Args::Number(n) => 0 <= *n && *n <= most,
        _ => false,
    }
}

fn is_text_up_to(most: usize, args: &Args) -> bool
    ensures { result ≡ is_text_upto most args.now }
{
    match args {
        Args::Text(text) => text.len() <= most,
        _ => false,
    }
}

fn is_two_up_to(first: u64, second: u64, args: &Args) -> bool
    ensures { result ≡ is_two_upto first second args.now }
{
    match args {
        Args::Two(a, b) => *a <= first && *b <= second,
        _ => false,
    }
}
