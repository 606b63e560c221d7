//! The parts of a pane of a side input: pairs of a tag and a value, which is of the main input or of the view.

ghost use Rattle.std.specs.Prelude.{◌≡◌, ◌<◌, ◌++◌, pos, nat_lt, length, map, IfOk, OnOk};
ghost use Rattle.std.specs.List.{list_all, list_any};
ghost use Rattle.std.specs.Option.{option_copied, option_map};
ghost use Rattle.beam_model.specs.Functions.{is_pair, is_side_part, main_values, only_one, valued};
ghost use Rattle.beam_model.specs.Functions.{value_tagged, view_values};
ghost use Rattle.beam_model.specs.Values.{pair};
ghost use Rattle.dofn_library.specs.Sides.{at_most_one, sides_of};

use crate::shapes::{items_of, pair_of, push_valued};
use beam_values::{Boxed, Element, List, NoMemory, Value};
use std::alloc::Global;

/// The tag of a value of the main input.
pub const MAIN: i64 = 1;

/// The tag of a value of the view.
pub const VIEW: i64 = 0;

/// The parts of a pane with the key `Null`, where each has one of the two tags.
pub fn sides_of(pane: &Value) -> Option<&[Value]>
    ensures { option_copied result ≡ sides_of pane.now }
{
    let pane = pair_of(pane)?;
    let Value::Null = pane.key.get() else {
        return None;
    };
    let parts = items_of(pane.part.get())?;
    if are_side_parts(parts) {
        Some(parts)
    } else {
        None
    }
}

fn are_side_parts(parts: &[Value]) -> bool
    ensures { result ≡ list_all is_side_part parts.now }
{
    parts.iter().all(|part| is_side_part(part))
}

fn is_side_part(part: &Value) -> bool
    ensures { result ≡ is_side_part part.now }
{
    tagged(part, MAIN).is_some() || tagged(part, VIEW).is_some()
}

/// The value of a part that has this tag.
pub fn tagged(part: &Value, tag: i64) -> Option<&Boxed<Value>>
    ensures { at_most_one (option_map (λ value. value.now) result) ≡ value_tagged tag part.now }
{
    match part {
        Value::Pair(key, value) => match key.get() {
            Value::Int(n) if *n == tag => Some(value),
            _ => None,
        },
        _ => None,
    }
}

/// Whether all values with this tag are pairs.
pub fn are_pairs(parts: &[Value], tag: i64) -> bool
    ensures { result ≡ list_all (λ part. list_all is_pair (value_tagged tag part)) parts.now }
{
    parts.iter().all(|part| is_pair_where(part, tag))
}

// Whether the value of a part is a pair, if it has this tag.
fn is_pair_where(part: &Value, tag: i64) -> bool
    ensures { result ≡ list_all is_pair (value_tagged tag part.now) }
{
    match tagged(part, tag) {
        Some(value) => pair_of(value.get()).is_some(),
        None => true,
    }
}

/// The only value of the view.
pub fn only_view(parts: &[Value]) -> Option<&Boxed<Value>>
    ensures { option_map (λ value. value.now) result ≡ only_one (view_values parts.now) }
{
    let mut only = None;
    for part in parts {
        if let Some(view) = tagged(part, VIEW) {
            if only.is_some() {
                return None;
            }
            only = Some(view);
        }
    }
    only
}

/// Whether there is a value of the main input.
pub fn has_mains(parts: &[Value]) -> bool
    ensures { result ≡ list_any (λ part. nat_lt 0 (length (value_tagged (pos 1) part))) parts.now }
{
    parts.iter().any(|part| is_main(part))
}

fn is_main(part: &Value) -> bool
    ensures { result ≡ nat_lt 0 (length (value_tagged (pos 1) part.now)) }
{
    tagged(part, MAIN).is_some()
}

/// Copies of the values of the view.
pub fn copy_views(alloc: Global, parts: &[Value]) -> Result<Vec<Value>, NoMemory>
    ensures { IfOk result (λ views. views.items ≡ view_values parts.now) }
{
    let mut views = Vec::new(alloc);
    for part in parts {
        if let Some(view) = tagged(part, VIEW) {
            views.push(view.get().copy(alloc)?)?;
        }
    }
    Ok(views)
}

/// Adds the element with each main value and the same part.
pub fn push_mains(
    e: &Element,
    parts: &[Value],
    with: &Boxed<Value>,
    out: &mut List<Element>,
) -> Result<(), NoMemory>
    ensures { OnOk result (out.new ≡ out.old
        ++ map (λ main. valued e.now (pair main with.now)) (main_values parts.now)) }
{
    for part in parts {
        if let Some(main) = tagged(part, MAIN) {
            push_valued(e, Value::Pair(main.share()?, with.share()?), out)?;
        }
    }
    Ok(())
}
