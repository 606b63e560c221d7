ghost use Rattle.std.specs.Prelude.{◌≡◌, map, ok_or, option_map};
ghost use Rattle.serde_json.specs.View.{view, items_view, members_view, number_view};
ghost use Rattle.plan_reader.specs.Forms.{any_number_in, bool_in, needed, number_in, only_member};
ghost use Rattle.plan_reader.specs.Forms.{only_of, pair_in, pair_of, string_in, strings_in};
ghost use Rattle.plan_reader.specs.Forms.{strings_of, text_in, value_of, within};
ghost use Rattle.plan_reader.specs.Refusals.{Gives, Reads};
ghost use Rattle.plan_reader.specs.Seen.{texts_of};

use crate::refusal::{Place, PlanKey, PlanReadRefusal, PlanRefusal};
use serde_json::{Map, Number, Value};
use std::alloc::Global;

pub(crate) fn value_of<'v>(key: PlanKey, object: &'v Value) -> Option<&'v Value>
    ensures { option_map (λ value. view value.now) result ≡ value_of key (view object.now) }
{
    object.get(key.word())
}

/// The value of a key that has to be there.
pub(crate) fn needed<'v>(place: Place, object: &'v Value) -> Result<&'v Value, PlanRefusal>
    ensures { Gives (λ value. view value.now) result (needed place (view object.now)) }
{
    match value_of(place.key, object) {
        None => Err(PlanRefusal::Field(place)),
        Some(value) => Ok(value),
    }
}

/// The key and the value of an object of one key.
pub(crate) fn only_member<'v>(value: &'v Value) -> Option<(&'v str, &'v Value)>
    ensures { option_map (λ entry. (entry.0.now, view entry.1.now)) result
        ≡ only_member (view value.now) }
{
    match value.as_object() {
        None => None,
        Some(members) => only_of(members),
    }
}

#[tactic(auto, using(crate::proofs::Members::only_of_others, crate::proofs::Members::only_of_one))]
fn only_of<'v>(members: &'v Map<String, Value>) -> Option<(&'v str, &'v Value)>
    ensures { option_map (λ entry. (entry.0.now, view entry.1.now)) result
        ≡ only_of (members_view members.now.entries) }
{
    if members.len() != 1 {
        return None;
    }
    match members.first_key_value() {
        None => None,
        Some((key, value)) => Some((key.as_str(), value)),
    }
}

pub(crate) fn string_in<'v>(place: Place, value: &'v Value) -> Result<&'v str, PlanRefusal>
    ensures { Gives (λ text. text.now) result (string_in place (view value.now)) }
{
    match value.as_str() {
        None => Err(PlanRefusal::Field(place)),
        Some(text) => Ok(text),
    }
}

/// A string of so many bytes.
pub(crate) fn text_in<'v>(
    least: usize,
    most: usize,
    place: Place,
    value: &'v Value,
) -> Result<&'v str, PlanRefusal>
    ensures { Gives (λ text. text.now) result (text_in least most place (view value.now)) }
{
    let text = string_in(place, value)?;
    if least <= text.len() && text.len() <= most {
        Ok(text)
    } else {
        Err(PlanRefusal::Name(place))
    }
}

/// An array of strings, which aren't copied.
pub(crate) fn strings_in<'v>(
    alloc: Global,
    place: Place,
    value: &'v Value,
) -> Result<Vec<&'v str>, PlanReadRefusal>
    ensures { Reads texts_of result (strings_in place (view value.now)) }
{
    match value.as_array() {
        None => Err(PlanReadRefusal::Bad(PlanRefusal::Field(place))),
        Some(items) => strings_of(alloc, place, items.as_slice()),
    }
}

#[tactic(auto, using(crate::proofs::Turns::turns))]
fn strings_of<'v>(
    alloc: Global,
    place: Place,
    items: &'v [Value],
) -> Result<Vec<&'v str>, PlanReadRefusal>
    ensures { Reads texts_of result (strings_of place (items_view items.now)) }
{
    let mut strings = Vec::with_capacity(alloc, items.len())?;
    for item in items {
        strings.push(string_in(place, item)?)?;
    }
    Ok(strings)
}

/// An array of two.
pub(crate) fn pair_in<'v>(
    place: Place,
    value: &'v Value,
) -> Result<(&'v Value, &'v Value), PlanRefusal>
    ensures { Gives (λ pair. (view pair.0.now, view pair.1.now)) result
        (pair_in place (view value.now)) }
{
    match value.as_array() {
        None => Err(PlanRefusal::Field(place)),
        Some(items) => pair_of(place, items.as_slice()),
    }
}

#[tactic(auto, using(crate::proofs::Members::pair_of_others))]
fn pair_of<'v>(place: Place, items: &'v [Value]) -> Result<(&'v Value, &'v Value), PlanRefusal>
    ensures { Gives (λ pair. (view pair.0.now, view pair.1.now)) result
        (ok_or (pair_of (items_view items.now)) (PlanRefusal.Field place)) }
{
    match items {
        [first, second] => Ok((first, second)),
        _ => Err(PlanRefusal::Field(place)),
    }
}

pub(crate) fn any_number_in<'v>(place: Place, value: &'v Value) -> Result<&'v Number, PlanRefusal>
    ensures { Gives (λ number. number_view number.now) result
        (any_number_in place (view value.now)) }
{
    match value.as_number() {
        None => Err(PlanRefusal::Field(place)),
        Some(number) => Ok(number),
    }
}

/// A whole number within limits.
pub(crate) fn within(
    least: u64,
    most: u64,
    place: Place,
    number: &Number,
) -> Result<u64, PlanRefusal>
    ensures { result ≡ within least most place (number_view number.now) }
{
    match number.as_u64() {
        Some(n) if least <= n && n <= most => Ok(n),
        _ => Err(PlanRefusal::Number(place)),
    }
}

pub(crate) fn number_in(
    least: u64,
    most: u64,
    place: Place,
    value: &Value,
) -> Result<u64, PlanRefusal>
    ensures { result ≡ number_in least most place (view value.now) }
{
    within(least, most, place, any_number_in(place, value)?)
}

pub(crate) fn bool_in(place: Place, value: &Value) -> Result<bool, PlanRefusal>
    ensures { result ≡ bool_in place (view value.now) }
{
    match value.as_bool() {
        None => Err(PlanRefusal::Field(place)),
        Some(truth) => Ok(truth),
    }
}
