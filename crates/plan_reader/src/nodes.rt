ghost use Rattle.std.specs.Prelude.{◌≡◌, ◌<◌, ◌^◌, length, map, option_map, IfOk};
ghost use Rattle.indexmap.specs.IndexSet.{index_set_len};
ghost use Rattle.serde_json.specs.View.{view};
ghost use Rattle.plan_reader.specs.Nodes.{closed, inputs_of, kind_of, main_of, node_of, nodes_of};
ghost use Rattle.plan_reader.specs.Nodes.{one_of, plain_of, side_of, view_mode_of, view_of};
ghost use Rattle.plan_reader.specs.Refusals.{Reads};
ghost use Rattle.plan_reader.specs.Seen.{names_in};

use crate::forms::{needed, string_in, strings_in, value_of};
use crate::keys::{has_only_keys_of, has_only_side_keys};
use crate::names::{inputs_in, number_of};
use crate::placing::DocumentNode;
use crate::refusal::{Place, PlanKey, PlanReadRefusal, PlanRefusal};
use crate::settings::settings_of;
use crate::words::{DocumentKind, KindWord, document_kind, view_mode_word};
use beam_values::{List, Node};
use indexmap::IndexSet;
use serde_json::Value;
use side_inputs::ViewMode;
use std::alloc::Global;

/// Node after node, where `names` are the names of all.
#[tactic(auto, using(crate::proofs::Turns::turns))]
pub(crate) fn nodes_of(
    alloc: Global,
    version: u32,
    names: &IndexSet<&str>,
    nodes: &[Value],
) -> Result<List<DocumentNode>, PlanReadRefusal>
    requires few_names { index_set_len names.now < 2 ^ 32 }
    requires few { length nodes.now < 2 ^ 32 }
    ensures nodes { Reads (λ nodes. nodes) result
        (nodes_of version (names_in names.now) (map view nodes.now)) }
    ensures each { IfOk result (λ read. length read ≡ length nodes.now) }
{
    let mut read = Vec::with_capacity(alloc, nodes.len())?;
    for object in nodes {
        let node = read.len() as u32;
        read.push(node_of(alloc, version, names, node, object)?)?;
    }
    Ok(List::from_vec(read))
}

fn node_of(
    alloc: Global,
    version: u32,
    names: &IndexSet<&str>,
    node: u32,
    object: &Value,
) -> Result<DocumentNode, PlanReadRefusal>
    requires { index_set_len names.now < 2 ^ 32 }
    ensures { Reads (λ node. node) result
        (node_of version (names_in names.now) node (view object.now)) }
{
    match kind_of(version, node, object)? {
        DocumentKind::Plain(word) => {
            let plain = plain_of(alloc, word, version, names, node, object)?;
            Ok(DocumentNode::Plain(plain))
        }
        DocumentKind::Side => side_of(alloc, names, node, object),
    }
}

// A node of this kind that is one node of the plan.
fn plain_of(
    alloc: Global,
    word: KindWord,
    version: u32,
    names: &IndexSet<&str>,
    node: u32,
    object: &Value,
) -> Result<Node, PlanReadRefusal>
    requires { index_set_len names.now < 2 ^ 32 }
    ensures { Reads (λ node. node) result
        (plain_of word version (names_in names.now) node (view object.now)) }
{
    let inputs = inputs_of(alloc, word, names, node, object)?;
    let kind = settings_of(alloc, word, version, node, object)?;
    Ok(closed(version, node, object, Node { kind, inputs })?)
}

fn side_of(
    alloc: Global,
    names: &IndexSet<&str>,
    node: u32,
    object: &Value,
) -> Result<DocumentNode, PlanReadRefusal>
    requires { index_set_len names.now < 2 ^ 32 }
    ensures { Reads (λ node. node) result (side_of (names_in names.now) node (view object.now)) }
{
    let main = main_of(alloc, names, node, object)?;
    let view = view_of(names, node, object)?;
    let mode = view_mode_of(node, object)?;
    if has_only_side_keys(object) {
        Ok(DocumentNode::Side { main, view, mode })
    } else {
        let place = Place::in_node(node, PlanKey::Other);
        Err(PlanReadRefusal::Bad(PlanRefusal::Field(place)))
    }
}

// The main collection, of which there is one.
fn main_of(
    alloc: Global,
    names: &IndexSet<&str>,
    node: u32,
    object: &Value,
) -> Result<u32, PlanReadRefusal>
    requires { index_set_len names.now < 2 ^ 32 }
    ensures { Reads (λ main. main) result (main_of (names_in names.now) node (view object.now)) }
{
    let place = Place::in_node(node, PlanKey::Input);
    let inputs = strings_in(alloc, place, needed(place, object)?)?;
    match one_of(inputs.as_slice()) {
        Some(name) => Ok(number_of(names, place, name)?),
        None => Err(PlanReadRefusal::Bad(PlanRefusal::Field(place))),
    }
}

#[tactic(auto, using(crate::proofs::Members::one_of_others))]
fn one_of<'v>(names: &[&'v str]) -> Option<&'v str>
    ensures { option_map (λ name. name.now) result ≡ one_of (map (λ name. name.now) names.now) }
{
    match names {
        [name] => Some(*name),
        _ => None,
    }
}

fn view_of(names: &IndexSet<&str>, node: u32, object: &Value) -> Result<u32, PlanRefusal>
    requires { index_set_len names.now < 2 ^ 32 }
    ensures { result ≡ view_of (names_in names.now) node (view object.now) }
{
    let place = Place::in_node(node, PlanKey::View);
    number_of(names, place, string_in(place, needed(place, object)?)?)
}

fn view_mode_of(node: u32, object: &Value) -> Result<ViewMode, PlanRefusal>
    ensures { result ≡ view_mode_of node (view object.now) }
{
    let place = Place::in_node(node, PlanKey::Mode);
    let word = string_in(place, needed(place, object)?)?;
    view_mode_word(word).ok_or(PlanRefusal::Name(place))
}

fn kind_of(version: u32, node: u32, object: &Value) -> Result<DocumentKind, PlanRefusal>
    ensures { result ≡ kind_of version node (view object.now) }
{
    let place = Place::in_node(node, PlanKey::Kind);
    let word = string_in(place, needed(place, object)?)?;
    document_kind(version, word).ok_or(PlanRefusal::Name(place))
}

// A source may leave its inputs out.
fn inputs_of(
    alloc: Global,
    word: KindWord,
    names: &IndexSet<&str>,
    node: u32,
    object: &Value,
) -> Result<List<u32>, PlanReadRefusal>
    requires { index_set_len names.now < 2 ^ 32 }
    ensures { Reads (λ inputs. inputs) result
        (inputs_of word (names_in names.now) node (view object.now)) }
{
    let place = Place::in_node(node, PlanKey::Input);
    match value_of(PlanKey::Input, object) {
        Some(value) => inputs_in(alloc, names, place, value),
        None if word == KindWord::Source => Ok(List::new(alloc)),
        None => Err(PlanReadRefusal::Bad(PlanRefusal::Field(place))),
    }
}

fn closed(version: u32, node: u32, object: &Value, read: Node) -> Result<Node, PlanRefusal>
    ensures { result ≡ closed version node (view object.now) read }
{
    if has_only_keys_of(version, &read.kind, object) {
        Ok(read)
    } else {
        Err(PlanRefusal::Field(Place::in_node(node, PlanKey::Other)))
    }
}
