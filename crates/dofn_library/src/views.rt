//! What belongs to a key in a view, whose values are pairs in ascending order: those with one key stand together.
//! The first of them is found by halving, and what was found for a key is shared by the main values with that key
//! that follow one another, as those of a group do. So a pane takes a few comparisons for each main value, and the
//! time of the lists that it gives.

ghost use Rattle.std.specs.Prelude.{◌≡◌, true, IfOk, IfSome};
ghost use Rattle.std.specs.List.{flat_map, list_all};
ghost use Rattle.std.specs.List.Sorted.{IsPartitionedBy, IsSorted};
ghost use Rattle.std.specs.Option.{option_map};
ghost use Rattle.beam_values.specs.Orders.{value_cmp};
ghost use Rattle.beam_model.specs.Functions.{found_in, is_pair};
ghost use Rattle.dofn_library.specs.Sides.{at_most_one, has_key, is_before, IsAllFound};

use crate::kept::is_same;
use crate::shapes::pair_of;
use beam_values::{Boxed, List, NoMemory, Value, cmp_values};
use std::alloc::Global;

/// A key, and the sequence of what belongs to it in a view.
#[derive(Drop)]
pub struct Found {
    pub key: Boxed<Value>,
    pub part: Boxed<Value>,
}

/// What belongs to a key in a view. What was found last is kept where it was for this key.
pub fn found_for(
    alloc: Global,
    views: &[Value],
    key: &Boxed<Value>,
    last: Option<Found>,
) -> Result<Found, NoMemory>
    requires ascending { IsSorted value_cmp views.now }
    requires pairs { list_all is_pair views.now ≡ true }
    requires last { IfSome last (λ found. IsAllFound views.now found.key found.part) }
    ensures found { IfOk result (λ found. IsAllFound views.now found.key found.part) }
    ensures part { IfOk result (λ found. IsAllFound views.now key.now found.part) }
{
    if let Some(found) = last
        && is_same(found.key.get(), key.get())
    {
        return Ok(found);
    }
    let found = found_in(alloc, views, key.get())?;
    Ok(Found {
        key: key.share()?,
        part: Boxed::new(alloc, Value::Seq(found))?,
    })
}

// The parts with a key in a view, in the order of the view.
fn found_in(alloc: Global, views: &[Value], key: &Value) -> Result<List<Value>, NoMemory>
    requires ascending { IsSorted value_cmp views.now }
    requires pairs { list_all is_pair views.now ≡ true }
    ensures { IfOk result (λ found. found ≡ flat_map (found_in key.now) views.now) }
{
    let first = views.partition_point(|view| is_before(view, key));
    let (_, from_first) = views.split_at(first);
    found_first(alloc, from_first, key)
}

// Whether a value has a key that is less.
fn is_before(view: &Value, key: &Value) -> bool
    ensures { result ≡ is_before key.now view.now }
{
    match pair_of(view) {
        Some(pair) => cmp_values(pair.key.get(), key).is_lt(),
        None => false,
    }
}

// The parts with a key, where the values with this key come first.
fn found_first(alloc: Global, views: &[Value], key: &Value) -> Result<List<Value>, NoMemory>
    requires { IsPartitionedBy (has_key key.now) views.now }
    ensures { IfOk result (λ found. found ≡ flat_map (found_in key.now) views.now) }
{
    let mut found = List::new(alloc);
    for view in views {
        let Some(part) = part_with(view, key) else {
            return Ok(found);
        };
        found.push(part.get().copy(alloc)?)?;
    }
    Ok(found)
}

// The part of a value that is a pair with this key.
fn part_with<'a>(view: &'a Value, key: &Value) -> Option<&'a Boxed<Value>>
    ensures { at_most_one (option_map (λ part. part.now) result) ≡ found_in key.now view.now }
{
    match pair_of(view) {
        Some(pair) if is_same(pair.key.get(), key) => Some(pair.part),
        _ => None,
    }
}
