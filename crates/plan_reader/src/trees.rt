//! Trees of counts and marks, by which panes fire early or late. A document of JSON is nested at most so deep
//! as its reader allows, and so is a tree that is looked at.

ghost use Rattle.std.specs.Prelude.{◌≡◌, IfOk, Some, None};
ghost use Rattle.serde_json.specs.View.{items_view, number_view, view};
ghost use Rattle.trigger_algebra.specs.Refusing.{refusal_of};
ghost use Rattle.trigger_algebra.specs.Staircases.{normal_of};
ghost use Rattle.plan_reader.specs.Refusals.{Reads};
ghost use Rattle.plan_reader.specs.Trees.{bars_in, bars_of, has_tree_form};
ghost use Rattle.plan_reader.specs.Trees.{have_tree_forms, is_tree_value, leaf_of, list_of};
ghost use Rattle.plan_reader.specs.Trees.{when_of, when_of_value, whens_of};

use crate::forms::only_member;
use crate::refusal::{Place, PlanReadRefusal, PlanRefusal};
use beam_values::{Bar, List, NoMemory};
use serde_json::{Number, Value};
use std::alloc::Global;
use trigger_algebra::{NormalRefusal, When, are_numbers_within, normal};

/// The bars of a tree whose marks lie within these bounds. The form of all of it is judged before any number
/// in it.
pub(crate) fn bars_in(
    alloc: Global,
    least: i64,
    most: i64,
    place: Place,
    value: &Value,
) -> Result<List<Bar>, PlanReadRefusal>
    ensures { Reads (λ bars. bars) result (bars_in least most place (view value.now)) }
{
    if !has_tree_form(value) {
        return Err(PlanReadRefusal::Bad(PlanRefusal::Field(place)));
    }
    match when_of(alloc, value)? {
        Some(when) => bars_of(alloc, least, most, place, &when),
        None => Err(PlanReadRefusal::Bad(PlanRefusal::Number(place))),
    }
}

fn bars_of(
    alloc: Global,
    least: i64,
    most: i64,
    place: Place,
    when: &When,
) -> Result<List<Bar>, PlanReadRefusal>
    ensures { Reads (λ bars. bars) result (bars_of least most place (Some when.now)) }
{
    match normal(alloc, when) {
        Ok(bars) => bars_within(least, most, place, when, bars),
        Err(NormalRefusal::Bad(_)) => Err(PlanReadRefusal::Bad(PlanRefusal::Number(place))),
        Err(NormalRefusal::NoMemory) => Err(PlanReadRefusal::NoMemory),
    }
}

fn bars_within(
    least: i64,
    most: i64,
    place: Place,
    when: &When,
    bars: List<Bar>,
) -> Result<List<Bar>, PlanReadRefusal>
    requires trigger { refusal_of when.now ≡ None }
    requires normal { bars ≡ normal_of when.now }
    ensures { Reads (λ bars. bars) result (bars_of least most place (Some when.now)) }
{
    if are_numbers_within(when, least, most) {
        Ok(bars)
    } else {
        Err(PlanReadRefusal::Bad(PlanRefusal::Number(place)))
    }
}

// ---- the form

#[cycle(forms)]
fn has_tree_form(value: &Value) -> bool
    ensures { result ≡ has_tree_form (view value.now) }
{
    match only_member(value) {
        Some((word, value)) => is_tree_value(word, value),
        None => false,
    }
}

#[cycle(forms)]
fn is_tree_value(word: &str, value: &Value) -> bool
    ensures { result ≡ is_tree_value word.now (view value.now) }
{
    match value {
        Value::Number(_) => word == "count" || word == "mark",
        Value::Array(trees) => {
            (word == "first" || word == "all") && have_tree_forms(trees.as_slice())
        }
        _ => false,
    }
}

#[cycle(forms)]
#[tactic(auto, using(crate::proofs::TreeTurns::form_turns))]
fn have_tree_forms(trees: &[Value]) -> bool
    ensures { result ≡ have_tree_forms (items_view trees.now) }
{
    for tree in trees {
        if !has_tree_form(tree) {
            return false;
        }
    }
    true
}

// ---- the tree of a value of that form

// `None` where a number in it isn't whole or isn't of its type.
#[cycle(whens)]
fn when_of(alloc: Global, value: &Value) -> Result<Option<When>, NoMemory>
    ensures { IfOk result (λ when. when ≡ when_of (view value.now)) }
{
    match only_member(value) {
        Some((word, value)) => when_of_value(alloc, word, value),
        None => Ok(None),
    }
}

#[cycle(whens)]
fn when_of_value(alloc: Global, word: &str, value: &Value) -> Result<Option<When>, NoMemory>
    ensures { IfOk result (λ when. when ≡ when_of_value word.now (view value.now)) }
{
    match value {
        Value::Number(number) => Ok(leaf_of(word, number)),
        Value::Array(trees) => match whens_of(alloc, trees.as_slice())? {
            Some(trees) => Ok(Some(list_of(word, trees))),
            None => Ok(None),
        },
        _ => Ok(None),
    }
}

#[cycle(whens)]
#[tactic(auto, using(crate::proofs::TreeTurns::when_turns))]
fn whens_of(alloc: Global, trees: &[Value]) -> Result<Option<List<When>>, NoMemory>
    ensures { IfOk result (λ whens. whens ≡ whens_of (items_view trees.now)) }
{
    let mut whens = List::new(alloc);
    for tree in trees {
        match when_of(alloc, tree)? {
            Some(when) => whens.push(when)?,
            None => return Ok(None),
        }
    }
    Ok(Some(whens))
}

fn list_of(word: &str, trees: List<When>) -> When
    ensures { result ≡ list_of word.now trees }
{
    match word {
        "first" => When::First(trees),
        _ => When::All(trees),
    }
}

fn leaf_of(word: &str, number: &Number) -> Option<When>
    ensures { result ≡ leaf_of word.now (number_view number.now) }
{
    match word {
        "count" => {
            let count = number.as_u64()?;
            u32::try_from(count).ok().map(When::Count)
        }
        _ => number.as_i64().map(When::MarkAt),
    }
}
