//! From the nodes of a document to those of its plan.

ghost use Rattle.std.specs.Prelude.{◌≡◌, ◌+◌, ◌<◌, ◌≤◌, ◌++◌, length, map, replicate, All, IfOk};
ghost use Rattle.std.specs.Prelude.{OnOk};
ghost use Rattle.indexmap.specs.IndexSet.{index_set_len};
ghost use Rattle.plan_reader.specs.Documents.{longest_document};
ghost use Rattle.plan_reader.specs.Placing.{HasInputsWithin, merges, nodes_at, place_at, places_of};
ghost use Rattle.plan_reader.specs.Placing.{plan_names, plan_nodes, side_refusal, width};
ghost use Rattle.plan_reader.specs.Seen.{names_in};

use crate::refusal::{Place, PlanKey, PlanRefusal};
use beam_values::{Bytes, Duplicate, List, NoMemory, Node, Strategy};
use indexmap::IndexSet;
use pipeline_graph::Graph;
use side_inputs::{ViewMode, side_nodes};
use std::alloc::Global;

/// A node as its document has it: an input is the number of a node of the document.
#[derive(Debug, Drop)]
pub(crate) enum DocumentNode {
    /// It is one node of the plan.
    Plain(Node),
    /// It is the five nodes of a side input.
    Side {
        main: u32,
        view: u32,
        mode: ViewMode,
    },
}

impl DocumentNode {
    /// How many nodes of the plan it is read as.
    fn width(&self) -> u32
        ensures { result ≡ width self.now }
    {
        match self {
            DocumentNode::Plain(_) => 1,
            DocumentNode::Side { .. } => 5,
        }
    }
}

/// The nodes of the plan, whose inputs are numbers of the plan.
#[tactic(auto, using(crate::proofs::Placed::placing_turns))]
pub(crate) fn plan_nodes(alloc: Global, nodes: &[DocumentNode]) -> Result<List<Node>, NoMemory>
    requires few { length nodes.now ≤ longest_document }
    requires within { All (HasInputsWithin (length nodes.now)) nodes.now }
    ensures { IfOk result (λ read. read ≡ plan_nodes nodes.now) }
{
    let places = places_of(alloc, nodes)?;
    let mut read = Vec::with_capacity(alloc, nodes.len())?;
    for node in nodes {
        push_nodes(alloc, places.as_slice(), node, &mut read)?;
    }
    Ok(List::from_vec(read))
}

/// The refusal of the first side input whose windows merge, if there is one.
#[tactic(auto, using(crate::proofs::Merging::merging_turns))]
pub(crate) fn side_refusal(graph: &Graph, nodes: &[DocumentNode]) -> Option<PlanRefusal>
    requires few { length nodes.now ≤ longest_document }
    requires read { graph.now.nodes ≡ plan_nodes nodes.now }
    ensures { result ≡ side_refusal graph.now 0 0 nodes.now }
{
    let mut first = 0;
    for (number, node) in nodes.iter().enumerate() {
        if merges(graph, first, node) {
            let place = Place::in_node(number as u32, PlanKey::View);
            return Some(PlanRefusal::Name(place));
        }
        first += node.width();
    }
    None
}

fn merges(graph: &Graph, first: u32, node: &DocumentNode) -> bool
    requires few { first ≤ 4294967290 }
    requires within { first + width node.now ≤ length graph.now.nodes }
    ensures { result ≡ merges graph.now first node.now }
{
    match node {
        DocumentNode::Plain(_) => false,
        DocumentNode::Side { .. } => matches!(graph.strategy(first + 3), Strategy::Sessions { .. }),
    }
}

// For each node the number in the plan that its name stands for.
#[tactic(auto, using(crate::proofs::Placed::place_turns))]
fn places_of(alloc: Global, nodes: &[DocumentNode]) -> Result<Vec<u32>, NoMemory>
    requires { length nodes.now ≤ longest_document }
    ensures { IfOk result (λ places. places.items ≡ places_of nodes.now) }
{
    let mut places = Vec::with_capacity(alloc, nodes.len())?;
    let mut count = 0;
    for node in nodes {
        count += node.width();
        places.push(count - 1)?;
    }
    Ok(places)
}

// Appends what a node is read as, where so many nodes of the plan stand before it.
fn push_nodes(
    alloc: Global,
    places: &[u32],
    node: &DocumentNode,
    read: &mut Vec<Node>,
) -> Result<(), NoMemory>
    requires few { length read.old.items ≤ 4294967290 }
    requires within { HasInputsWithin (length places.now) node.now }
    ensures { OnOk result
        (read.new.items ≡ read.old.items ++ nodes_at places.now (length read.old.items) node.now) }
{
    match node {
        DocumentNode::Plain(Node { kind, inputs }) => {
            let kind = kind.duplicate(alloc)?;
            let inputs = placed(alloc, places, inputs.as_slice())?;
            read.push(Node { kind, inputs })?;
            Ok(())
        }
        DocumentNode::Side { main, view, mode } => {
            let first = read.len() as u32;
            let main = places[*main as usize];
            let view = places[*view as usize];
            push_all(side_nodes(alloc, main, view, first, *mode)?, read)
        }
    }
}

fn push_all(nodes: List<Node>, read: &mut Vec<Node>) -> Result<(), NoMemory>
    ensures { OnOk result (read.new.items ≡ read.old.items ++ nodes) }
{
    for node in nodes.into_vec() {
        read.push(node)?;
    }
    Ok(())
}

fn placed(alloc: Global, places: &[u32], inputs: &[u32]) -> Result<List<u32>, NoMemory>
    requires { All (λ input. input < length places.now) inputs.now }
    ensures { IfOk result
        (λ placed. placed ≡ map (place_at places.now) inputs.now) }
{
    let mut placed = Vec::with_capacity(alloc, inputs.len())?;
    for input in inputs {
        placed.push(places[*input as usize])?;
    }
    Ok(List::from_vec(placed))
}

/// Copies of the names of the nodes of the plan, which outlive the document.
#[tactic(auto, using(crate::proofs::Placed::next_names))]
pub(crate) fn plan_names(
    alloc: Global,
    names: &IndexSet<&str>,
    nodes: &[DocumentNode],
) -> Result<List<Bytes>, NoMemory>
    requires { index_set_len names.now ≡ length nodes.now }
    ensures { IfOk result (λ owned. owned ≡ plan_names (names_in names.now) nodes.now) }
{
    let texts = names.as_slice();
    let mut owned = Vec::with_capacity(alloc, texts.len())?;
    for (number, node) in nodes.iter().enumerate() {
        push_name(alloc, texts[number], node.width(), &mut owned)?;
    }
    Ok(List::from_vec(owned))
}

fn push_name(alloc: Global, name: &str, times: u32, owned: &mut Vec<Bytes>) -> Result<(), NoMemory>
    ensures { OnOk result (owned.new.items ≡ owned.old.items ++ replicate times name.now) }
{
    for _ in 0..times {
        owned.push(Bytes::from_slice(alloc, name.as_bytes())?)?;
    }
    Ok(())
}
