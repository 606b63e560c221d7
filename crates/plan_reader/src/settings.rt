ghost use Rattle.std.specs.Prelude.{◌≡◌, ◌≤◌};
ghost use Rattle.serde_json.specs.View.{view};
ghost use Rattle.plan_reader.specs.Refusals.{Gives, Reads};
ghost use Rattle.plan_reader.specs.Settings.{counts_at, early_at, function_args, label_at, longest};
ghost use Rattle.plan_reader.specs.Settings.{group_of, log_at, mode_at, number_args, number_at};
ghost use Rattle.plan_reader.specs.Settings.{number_or, own_name, pardo_of, settings_of};
ghost use Rattle.plan_reader.specs.Settings.{source_args, source_files, source_of, state_args};
ghost use Rattle.plan_reader.specs.Settings.{early_of, late_of, needed_alone};
ghost use Rattle.plan_reader.specs.Settings.{stateful_of, text_args, window_of, work_at, write_of};
ghost use Rattle.plan_reader.specs.Words.{functions, sources, stateful_functions};

use crate::forms::{bool_in, needed, number_in, string_in, text_in, value_of};
use crate::refusal::{Place, PlanKey, PlanReadRefusal, PlanRefusal};
use crate::sources::{estimator_at, files_at};
use crate::trees::bars_in;
use crate::windows::{LONGEST, strategy_in};
use crate::words::{KindWord, function_word, mode_word, source_word, state_word};
use beam_values::{Args, Bar, Bytes, FnKind, List, Mode, NodeKind, SourceKind, StateKind, Trigger};
use pipeline_graph::{
    GREATEST_COUNT, GREATEST_FIELD, GREATEST_MADE, GREATEST_STEP, LONGEST_PREFIX,
};
use serde_json::Value;
use std::alloc::Global;
use windowing::GREATEST_LENGTH;

/// The greatest number of values of a batch.
const GREATEST_BATCH: u64 = 1_000_000;

/// The greatest count of a trigger.
const GREATEST_TRIGGER: u64 = u32::MAX as u64;

/// The greatest length of a label, in bytes.
const LONGEST_LABEL: usize = 64;

/// The settings of a node of this kind, in the order of their keys. Nothing is copied that isn't in the plan.
pub(crate) fn settings_of(
    alloc: Global,
    kind: KindWord,
    version: u32,
    node: u32,
    object: &Value,
) -> Result<NodeKind, PlanReadRefusal>
    ensures { Reads (λ kind. kind) result (settings_of kind version node (view object.now)) }
{
    match kind {
        KindWord::Source => source_of(alloc, node, object),
        KindWord::ParDo => pardo_of(alloc, node, object),
        KindWord::Flatten => Ok(NodeKind::Flatten),
        KindWord::Window => Ok(window_of(node, object)?),
        KindWord::Group => group_of(alloc, version, node, object),
        KindWord::Stateful => Ok(stateful_of(node, object)?),
        KindWord::Write => write_of(alloc, node, object),
    }
}

// A whole number within limits at a key that has to be there.
fn number_at(
    key: PlanKey,
    least: u64,
    most: u64,
    node: u32,
    object: &Value,
) -> Result<u64, PlanRefusal>
    ensures { result ≡ number_at key least most node (view object.now) }
{
    let place = Place::in_node(node, key);
    number_in(least, most, place, needed(place, object)?)
}

// The same at a key that may be absent.
fn number_or(
    default: u64,
    key: PlanKey,
    least: u64,
    most: u64,
    node: u32,
    object: &Value,
) -> Result<u64, PlanRefusal>
    ensures { result ≡ number_or default key least most node (view object.now) }
{
    match value_of(key, object) {
        None => Ok(default),
        Some(value) => number_in(least, most, Place::in_node(node, key), value),
    }
}

fn source_of(alloc: Global, node: u32, object: &Value) -> Result<NodeKind, PlanReadRefusal>
    ensures { Reads (λ kind. kind) result (source_of node (view object.now)) }
{
    let work = source_work(node, object)?;
    let files = source_files(alloc, work, node, object)?;
    let args = source_args(work, node, object)?;
    let estimator = estimator_at(node, object)?;
    Ok(NodeKind::Source {
        work,
        args,
        files,
        estimator,
    })
}

fn source_work(node: u32, object: &Value) -> Result<SourceKind, PlanRefusal>
    ensures { result ≡ work_at sources node (view object.now) }
{
    let place = Place::in_node(node, PlanKey::Work);
    let word = string_in(place, needed(place, object)?)?;
    source_word(word).ok_or(PlanRefusal::Name(place))
}

fn source_files(
    alloc: Global,
    work: SourceKind,
    node: u32,
    object: &Value,
) -> Result<List<Bytes>, PlanReadRefusal>
    ensures { Reads (λ files. files) result (source_files work node (view object.now)) }
{
    match work {
        SourceKind::Lines | SourceKind::TimedLines => files_at(alloc, node, object),
        SourceKind::Count | SourceKind::Made => Ok(List::new(alloc)),
    }
}

fn source_args(work: SourceKind, node: u32, object: &Value) -> Result<Args, PlanRefusal>
    ensures { result ≡ source_args work node (view object.now) }
{
    match work {
        SourceKind::Lines | SourceKind::TimedLines => Ok(Args::Nothing),
        SourceKind::Count => counts_at(GREATEST_COUNT, node, object),
        SourceKind::Made => counts_at(GREATEST_MADE, node, object),
    }
}

// The number is the step of Count, or what Made makes its lines from; their limits are the same.
fn counts_at(most: u64, node: u32, object: &Value) -> Result<Args, PlanRefusal>
    ensures { result ≡ counts_at most node (view object.now) }
{
    let count = number_at(PlanKey::Count, 0, most, node, object)?;
    let number = number_at(PlanKey::Number, 0, GREATEST_STEP, node, object)?;
    Ok(Args::Two(count, number))
}

fn pardo_of(alloc: Global, node: u32, object: &Value) -> Result<NodeKind, PlanReadRefusal>
    ensures { Reads (λ kind. kind) result (pardo_of node (view object.now)) }
{
    let work = function_work(node, object)?;
    let args = function_args(alloc, work, node, object)?;
    Ok(NodeKind::ParDo { work, args })
}

fn function_work(node: u32, object: &Value) -> Result<FnKind, PlanRefusal>
    ensures { result ≡ work_at functions node (view object.now) }
{
    let place = Place::in_node(node, PlanKey::Work);
    let word = string_in(place, needed(place, object)?)?;
    function_word(word).ok_or(PlanRefusal::Name(place))
}

fn function_args(
    alloc: Global,
    work: FnKind,
    node: u32,
    object: &Value,
) -> Result<Args, PlanReadRefusal>
    ensures { Reads (λ args. args) result (function_args work node (view object.now)) }
{
    match work {
        FnKind::Field => Ok(number_args(0, GREATEST_FIELD as u64, node, object)?),
        FnKind::Shift => Ok(number_args(0, LONGEST, node, object)?),
        FnKind::KeepPrefix => text_args(alloc, node, object),
        _ => Ok(Args::Nothing),
    }
}

fn number_args(least: u64, most: u64, node: u32, object: &Value) -> Result<Args, PlanRefusal>
    requires { most ≤ longest }
    ensures { result ≡ number_args least most node (view object.now) }
{
    let number = number_at(PlanKey::Number, least, most, node, object)?;
    Ok(Args::Number(number as i64))
}

fn text_args(alloc: Global, node: u32, object: &Value) -> Result<Args, PlanReadRefusal>
    ensures { Reads (λ args. args) result (text_args node (view object.now)) }
{
    let place = Place::in_node(node, PlanKey::Text);
    let text = text_in(0, LONGEST_PREFIX, place, needed(place, object)?)?;
    Ok(Args::Text(Bytes::from_slice(alloc, text.as_bytes())?))
}

fn stateful_of(node: u32, object: &Value) -> Result<NodeKind, PlanRefusal>
    ensures { result ≡ stateful_of node (view object.now) }
{
    let work = state_work(node, object)?;
    let args = state_args(work, node, object)?;
    let log = log_at(node, object)?;
    Ok(NodeKind::Stateful { work, args, log })
}

fn state_work(node: u32, object: &Value) -> Result<StateKind, PlanRefusal>
    ensures { result ≡ work_at stateful_functions node (view object.now) }
{
    let place = Place::in_node(node, PlanKey::Work);
    let word = string_in(place, needed(place, object)?)?;
    state_word(word).ok_or(PlanRefusal::Name(place))
}

fn state_args(work: StateKind, node: u32, object: &Value) -> Result<Args, PlanRefusal>
    ensures { result ≡ state_args work node (view object.now) }
{
    match work {
        StateKind::BatchUntil => number_args(1, GREATEST_BATCH, node, object),
        StateKind::LatestThenEmit => number_args(0, LONGEST, node, object),
        _ => Ok(Args::Nothing),
    }
}

fn log_at(node: u32, object: &Value) -> Result<bool, PlanRefusal>
    ensures { result ≡ log_at node (view object.now) }
{
    match value_of(PlanKey::Log, object) {
        None => Ok(false),
        Some(value) => bool_in(Place::in_node(node, PlanKey::Log), value),
    }
}

fn window_of(node: u32, object: &Value) -> Result<NodeKind, PlanRefusal>
    ensures { result ≡ window_of node (view object.now) }
{
    let place = Place::in_node(node, PlanKey::Windows);
    let strategy = strategy_in(place, needed(place, object)?)?;
    Ok(NodeKind::WindowInto { strategy })
}

fn group_of(
    alloc: Global,
    version: u32,
    node: u32,
    object: &Value,
) -> Result<NodeKind, PlanReadRefusal>
    ensures { Reads (λ kind. kind) result (group_of version node (view object.now)) }
{
    let (early, early_bars) = early_of(alloc, version, node, object)?;
    let (late, late_bars) = late_of(alloc, version, node, object)?;
    let lateness = number_or(0, PlanKey::Lateness, 0, LONGEST, node, object)?;
    let mode = mode_at(node, object)?;
    Ok(NodeKind::Group {
        trigger: Trigger {
            early,
            late,
            lateness: lateness as i64,
            mode,
            early_bars,
            late_bars,
        },
    })
}

// When early panes fire: by a count, or by a tree, which documents have from version 3 on.
fn early_of(
    alloc: Global,
    version: u32,
    node: u32,
    object: &Value,
) -> Result<(Option<u32>, List<Bar>), PlanReadRefusal>
    ensures { Reads (λ early. early) result (early_of version node (view object.now)) }
{
    if version >= 3 && value_of(PlanKey::EarlyWhen, object).is_some() {
        let place = Place::in_node(node, PlanKey::EarlyWhen);
        let value = needed_alone(PlanKey::Early, place, object)?;
        Ok((None, bars_in(alloc, -GREATEST_LENGTH, -1, place, value)?))
    } else {
        Ok((early_at(node, object)?, List::new(alloc)))
    }
}

// When late panes fire.
fn late_of(
    alloc: Global,
    version: u32,
    node: u32,
    object: &Value,
) -> Result<(u32, List<Bar>), PlanReadRefusal>
    ensures { Reads (λ late. late) result (late_of version node (view object.now)) }
{
    if version >= 3 && value_of(PlanKey::LateWhen, object).is_some() {
        let place = Place::in_node(node, PlanKey::LateWhen);
        let value = needed_alone(PlanKey::Late, place, object)?;
        Ok((1, bars_in(alloc, 0, GREATEST_LENGTH, place, value)?))
    } else {
        let late = number_or(1, PlanKey::Late, 1, GREATEST_TRIGGER, node, object)?;
        Ok((late as u32, List::new(alloc)))
    }
}

// The value of a key that stands without the other one.
fn needed_alone<'v>(
    sibling: PlanKey,
    place: Place,
    object: &'v Value,
) -> Result<&'v Value, PlanRefusal>
    ensures { Gives (λ value. view value.now) result (needed_alone sibling place (view object.now)) }
{
    if value_of(sibling, object).is_some() {
        return Err(PlanRefusal::Field(place));
    }
    needed(place, object)
}

fn early_at(node: u32, object: &Value) -> Result<Option<u32>, PlanRefusal>
    ensures { result ≡ early_at node (view object.now) }
{
    match value_of(PlanKey::Early, object) {
        None => Ok(None),
        Some(value) => {
            let place = Place::in_node(node, PlanKey::Early);
            let count = number_in(1, GREATEST_TRIGGER, place, value)?;
            Ok(Some(count as u32))
        }
    }
}

fn mode_at(node: u32, object: &Value) -> Result<Mode, PlanRefusal>
    ensures { result ≡ mode_at node (view object.now) }
{
    match value_of(PlanKey::Mode, object) {
        None => Ok(Mode::Discarding),
        Some(value) => {
            let place = Place::in_node(node, PlanKey::Mode);
            mode_word(string_in(place, value)?).ok_or(PlanRefusal::Name(place))
        }
    }
}

fn write_of(alloc: Global, node: u32, object: &Value) -> Result<NodeKind, PlanReadRefusal>
    ensures { Reads (λ kind. kind) result (write_of node (view object.now)) }
{
    let label = label_at(node, object)?;
    Ok(NodeKind::Write {
        label: Bytes::from_slice(alloc, label.as_bytes())?,
    })
}

fn label_at<'v>(node: u32, object: &'v Value) -> Result<&'v str, PlanRefusal>
    ensures { Gives (λ label. label.now) result (label_at node (view object.now)) }
{
    match value_of(PlanKey::Label, object) {
        None => Ok(own_name(object)),
        Some(value) => text_in(
            0,
            LONGEST_LABEL,
            Place::in_node(node, PlanKey::Label),
            value,
        ),
    }
}

fn own_name(object: &Value) -> &str
    ensures { result.now ≡ own_name (view object.now) }
{
    match value_of(PlanKey::Name, object) {
        None => "",
        Some(value) => value.as_str().unwrap_or(""),
    }
}
