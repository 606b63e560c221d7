ghost use Rattle.std.specs.Prelude.{◌≡◌, ◌≤◌, length, map, ok_or, All, Ok, IfErr, IfOk};
ghost use Rattle.serde_json.specs.View.{number_view, view};
ghost use Rattle.plan_reader.specs.Documents.{HasFewNodes, array_names_of, array_of, document_of};
ghost use Rattle.plan_reader.specs.Documents.{graph_of};
ghost use Rattle.plan_reader.specs.Placing.{HasInputsWithin};
ghost use Rattle.plan_reader.specs.Documents.{json_of, length_refusal, longest_document};
ghost use Rattle.plan_reader.specs.Documents.{node_names_of, plan_of, version_in, version_of};
ghost use Rattle.plan_reader.specs.Refusals.{Gives, IsFirst, Reads};

use crate::forms::{any_number_in, needed};
use crate::keys::has_only;
use crate::names::names_of;
use crate::nodes::nodes_of;
use crate::placing::{DocumentNode, plan_names, plan_nodes, side_refusal};
use crate::refusal::{Place, PlanKey, PlanReadRefusal, PlanRefusal};
use beam_values::{Bytes, List, Plan};
use pipeline_graph::Graph;
use serde_json::{Category, Number, Value};
use std::alloc::Global;

/// The greatest length of a document, in bytes.
pub const LONGEST_DOCUMENT: u64 = 1_048_576;

/// Whether a document of so many bytes is too long to be read.
pub fn length_refusal(len: u64) -> Option<PlanRefusal>
    ensures { result ≡ length_refusal len }
{
    if len > LONGEST_DOCUMENT {
        Some(PlanRefusal::Length(len))
    } else {
        None
    }
}

/// The latest version of a document that is read.
const LATEST_VERSION: u64 = 3;

/// The latest version of a plan. What later documents say is read into it.
const LATEST_PLAN: u32 = 2;

/// A checked pipeline, and the names that its document gives its nodes, each by its number in the plan. The
/// name of a side input stands five times.
#[derive(Debug, Drop)]
pub struct NamedPlan {
    pub names: List<Bytes>,
    pub graph: Graph,
}

/// Reads the bytes of a plan document as a pipeline. A refusal is the first rule that the document breaks.
pub fn read_plan(alloc: Global, bytes: &[u8]) -> Result<Graph, PlanReadRefusal>
    ensures plan { IfOk result (λ graph. document_of bytes.now ≡ Ok graph) }
    ensures refused { IfErr result (IsFirst (document_of bytes.now)) }
{
    let NamedPlan { names: _, graph } = read_named_plan(alloc, bytes)?;
    Ok(graph)
}

/// Reads the bytes of a plan document as a pipeline with the names of its nodes. A refusal is the first rule
/// that the document breaks.
pub fn read_named_plan(alloc: Global, bytes: &[u8]) -> Result<NamedPlan, PlanReadRefusal>
    ensures plan { IfOk result (λ named. document_of bytes.now ≡ Ok named.graph) }
    ensures names { IfOk result (λ named. node_names_of bytes.now ≡ Ok named.names) }
    ensures each { IfOk result (λ named. length named.names ≡ length named.graph.nodes) }
    ensures refused { IfErr result (IsFirst (document_of bytes.now)) }
{
    if let Some(refusal) = length_refusal(bytes.len() as u64) {
        return Err(PlanReadRefusal::Bad(refusal));
    }
    let document = json_of(alloc, bytes)?;
    named_plan_of(alloc, &document)
}

#[tactic(auto, using(crate::proofs::FewNodes::few_nodes, crate::proofs::Texts::json_read, crate::proofs::Texts::json_refused))]
fn json_of(alloc: Global, bytes: &[u8]) -> Result<Value, PlanReadRefusal>
    requires { length bytes.now ≤ longest_document }
    ensures value { Reads view result (ok_or (json_of bytes.now) PlanRefusal.Syntax) }
    ensures few { IfOk result (λ document. HasFewNodes (view document)) }
{
    match Value::from_slice(alloc, bytes) {
        Ok(document) => Ok(document),
        Err(error) => match error.classify() {
            Category::Memory => Err(PlanReadRefusal::NoMemory),
            _ => Err(PlanReadRefusal::Bad(PlanRefusal::Syntax)),
        },
    }
}

fn named_plan_of(alloc: Global, document: &Value) -> Result<NamedPlan, PlanReadRefusal>
    requires { HasFewNodes (view document.now) }
    ensures plan { Reads (λ named. named.graph) result (plan_of (view document.now)) }
    ensures names { IfOk result (λ named. array_names_of (view document.now) ≡ Ok named.names) }
    ensures each { IfOk result (λ named. length named.names ≡ length named.graph.nodes) }
{
    let version = version_of(document)?;
    let nodes = array_of(document)?;
    let names = names_of(alloc, nodes)?;
    let read = nodes_of(alloc, version, &names, nodes)?;
    let names = plan_names(alloc, &names, read.as_slice())?;
    let graph = graph_of(alloc, version, read)?;
    Ok(NamedPlan { names, graph })
}

// The pipeline of these nodes of a document of this version.
fn graph_of(alloc: Global, version: u32, read: List<DocumentNode>) -> Result<Graph, PlanReadRefusal>
    requires few { length read ≤ longest_document }
    requires within { All (HasInputsWithin (length read)) read }
    ensures { Reads (λ graph. graph) result (graph_of version read) }
{
    let nodes = plan_nodes(alloc, read.as_slice())?;
    let plan = Plan {
        version: version.min(LATEST_PLAN),
        nodes,
    };
    let graph = Graph::check(alloc, plan)?;
    match side_refusal(&graph, read.as_slice()) {
        Some(refusal) => Err(PlanReadRefusal::Bad(refusal)),
        None => Ok(graph),
    }
}

// The version of an object.
fn version_of(document: &Value) -> Result<u32, PlanRefusal>
    ensures { result ≡ version_of (view document.now) }
{
    if !document.is_object() {
        return Err(PlanRefusal::Field(Place::top(PlanKey::Other)));
    }
    let place = Place::top(PlanKey::Beam);
    version_in(any_number_in(place, needed(place, document)?)?)
}

// A whole number from 1 to the latest version.
fn version_in(number: &Number) -> Result<u32, PlanRefusal>
    ensures { result ≡ version_in (number_view number.now) }
{
    match number.as_u64() {
        Some(version) if 1 <= version && version <= LATEST_VERSION => Ok(version as u32),
        _ => Err(PlanRefusal::Version),
    }
}

// The array of nodes of an object that has no other keys.
#[tactic(auto, using(crate::proofs::Turns::items_list_of_view))]
fn array_of(document: &Value) -> Result<&[Value], PlanRefusal>
    ensures { Gives (λ nodes. map view nodes.now) result (array_of (view document.now)) }
{
    let place = Place::top(PlanKey::Nodes);
    let nodes = match needed(place, document)?.as_array() {
        None => return Err(PlanRefusal::Field(place)),
        Some(nodes) => nodes.as_slice(),
    };
    if has_only(&[PlanKey::Beam, PlanKey::Nodes], &[], document) {
        Ok(nodes)
    } else {
        Err(PlanRefusal::Field(Place::top(PlanKey::Other)))
    }
}
