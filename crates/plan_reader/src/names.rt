ghost use Rattle.std.specs.Prelude.{◌≡◌, ◌<◌, ◌^◌, ◌++◌, ◌∷◌, [], length, map, IfOk, OnOk};
ghost use Rattle.std.specs.Prelude.{bytes_eq, false};
ghost use Rattle.std.specs.List.{list_any};
ghost use Rattle.indexmap.specs.IndexSet.{index_set_len};
ghost use Rattle.serde_json.specs.View.{view};
ghost use Rattle.plan_reader.specs.Nodes.{is_new_name, inputs_in, name_of, names_of, number_of};
ghost use Rattle.plan_reader.specs.Nodes.{numbers_of};
ghost use Rattle.plan_reader.specs.Refusals.{Gives, Reads};
ghost use Rattle.plan_reader.specs.Seen.{names_in, texts_of};

use crate::forms::{needed, string_in, strings_in};
use crate::refusal::{Place, PlanKey, PlanReadRefusal, PlanRefusal};
use beam_values::{List, NoMemory};
use indexmap::IndexSet;
use serde_json::Value;
use std::alloc::Global;

/// The greatest length of a node's name, in bytes.
const LONGEST_NAME: usize = 64;

/// The names of all nodes, each by its number in the document.
#[tactic(auto, using(crate::proofs::Turns::turns))]
pub(crate) fn names_of<'v>(
    alloc: Global,
    nodes: &'v [Value],
) -> Result<IndexSet<&'v str>, PlanReadRefusal>
    requires { length nodes.now < 2 ^ 32 }
    ensures names { Reads names_in result (names_of (map view nodes.now)) }
    ensures each { IfOk result (λ names. index_set_len names ≡ length nodes.now) }
{
    let mut names = IndexSet::new(alloc);
    for object in nodes {
        let name = name_of(&names, object)?;
        add_name(&mut names, name)?;
    }
    Ok(names)
}

// The name of the node after those of these names.
fn name_of<'v>(earlier: &IndexSet<&'v str>, object: &'v Value) -> Result<&'v str, PlanRefusal>
    requires { index_set_len earlier.now < 2 ^ 32 }
    ensures { Gives (λ name. name.now) result (name_of (names_in earlier.now) (view object.now)) }
{
    let node = earlier.len() as u32;
    if !object.is_object() {
        return Err(PlanRefusal::Field(Place::in_node(node, PlanKey::Other)));
    }
    let place = Place::in_node(node, PlanKey::Name);
    let name = string_in(place, needed(place, object)?)?;
    if is_new_name(earlier, name) {
        Ok(name)
    } else {
        Err(PlanRefusal::Name(place))
    }
}

#[tactic(auto, using(crate::proofs::Seen::list_any_seen))]
fn is_new_name(earlier: &IndexSet<&str>, name: &str) -> bool
    ensures { result ≡ is_new_name (names_in earlier.now) name.now }
{
    1 <= name.len() && name.len() <= LONGEST_NAME && !earlier.contains(name)
}

#[tactic(auto, using(crate::proofs::Seen::added))]
fn add_name<'v>(names: &mut IndexSet<&'v str>, name: &'v str) -> Result<(), NoMemory>
    requires { list_any (bytes_eq name.now) (names_in names.old) ≡ false }
    ensures { OnOk result (names_in names.new ≡ names_in names.old ++ name.now ∷ []) }
{
    names.insert(name)?;
    Ok(())
}

/// The numbers of the nodes of an array of names.
pub(crate) fn inputs_in(
    alloc: Global,
    names: &IndexSet<&str>,
    place: Place,
    value: &Value,
) -> Result<List<u32>, PlanReadRefusal>
    requires { index_set_len names.now < 2 ^ 32 }
    ensures { Reads (λ inputs. inputs) result
        (inputs_in (names_in names.now) place (view value.now)) }
{
    let inputs = strings_in(alloc, place, value)?;
    numbers_of(alloc, names, place, inputs.as_slice())
}

#[tactic(auto, using(crate::proofs::Turns::turns_at))]
fn numbers_of(
    alloc: Global,
    names: &IndexSet<&str>,
    place: Place,
    inputs: &[&str],
) -> Result<List<u32>, PlanReadRefusal>
    requires { index_set_len names.now < 2 ^ 32 }
    ensures { Reads (λ numbers. numbers) result
        (numbers_of (names_in names.now) place (map (λ name. name.now) inputs.now)) }
{
    let mut numbers = Vec::with_capacity(alloc, inputs.len())?;
    for name in inputs {
        numbers.push(number_of(names, place, name)?)?;
    }
    Ok(List::from_vec(numbers))
}

/// The number of the node of this name.
#[tactic(auto, using(crate::proofs::Seen::position_seen))]
pub(crate) fn number_of(
    names: &IndexSet<&str>,
    place: Place,
    name: &str,
) -> Result<u32, PlanRefusal>
    requires { index_set_len names.now < 2 ^ 32 }
    ensures { result ≡ number_of (names_in names.now) place name.now }
{
    match names.get_index_of(name) {
        None => Err(PlanRefusal::Name(place)),
        Some(number) => Ok(number as u32),
    }
}
