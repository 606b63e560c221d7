ghost use Rattle.std.specs.Prelude.{◌≡◌, ◌++◌, IfOk, OnOk, length};
ghost use Rattle.plan_drawing.specs.Drawing.{box_of, boxes, drawing_of, edge_of, edges, edges_of};
ghost use Rattle.plan_drawing.specs.Drawing.{id_of, line_of, shape_of};

use crate::lines::push_label;
use beam_values::{Bytes, List, NoMemory, Node, NodeKind, Plan};
use itoa::Buffer;
use std::alloc::Global;

/// The drawing of a plan, where `names` are the names of its nodes, each by its number: a graph in the
/// language of Graphviz, with a box for each node and an edge from each input to the node that takes from it.
pub fn draw(alloc: Global, names: &[Bytes], plan: &Plan) -> Result<Bytes, NoMemory>
    requires { length names.now ≡ length plan.now.nodes }
    ensures { IfOk result (λ text. text ≡ drawing_of names.now plan.now) }
{
    let nodes = plan.nodes.as_slice();
    let mut text = List::new(alloc);
    push_ended(b"digraph plan {", &mut text)?;
    push_boxes(names, nodes, &mut text)?;
    push_edges(nodes, &mut text)?;
    push_ended(b"}", &mut text)?;
    Bytes::from_list(alloc, text)
}

// Appends words and the end of a line.
fn push_ended(words: &[u8], out: &mut List<u8>) -> Result<(), NoMemory>
    ensures { OnOk result (out.new ≡ out.old ++ line_of words.now) }
{
    out.extend_from_slice(words)?;
    out.push(b'\n')
}

fn push_id(number: usize, out: &mut List<u8>) -> Result<(), NoMemory>
    ensures { OnOk result (out.new ≡ out.old ++ id_of number) }
{
    out.push(b'n')?;
    out.extend_from_slice(Buffer::new().format(number).as_bytes())
}

#[tactic(auto, using(crate::proofs::Rest::next_box))]
fn push_boxes(names: &[Bytes], nodes: &[Node], out: &mut List<u8>) -> Result<(), NoMemory>
    requires { length names.now ≡ length nodes.now }
    ensures { OnOk result (out.new ≡ out.old ++ boxes names.now nodes.now) }
{
    for (i, node) in nodes.iter().enumerate() {
        push_box(i, names[i].as_slice(), node, out)?;
    }
    Ok(())
}

fn push_box(number: usize, name: &[u8], node: &Node, out: &mut List<u8>) -> Result<(), NoMemory>
    ensures { OnOk result (out.new ≡ out.old ++ box_of number name.now node.now) }
{
    out.extend_from_slice(b"  ")?;
    push_id(number, out)?;
    out.extend_from_slice(b" [shape=")?;
    out.extend_from_slice(shape_of(&node.kind))?;
    out.extend_from_slice(b", label=\"")?;
    push_label(name, &node.kind, out)?;
    push_ended(b"\"];", out)
}

fn shape_of(kind: &NodeKind) -> &'static [u8]
    ensures { result.now ≡ shape_of kind.now }
{
    match kind {
        NodeKind::Source { .. } => b"cylinder",
        NodeKind::Write { .. } => b"note",
        _ => b"box",
    }
}

#[tactic(auto, using(crate::proofs::Rest::next_edges))]
fn push_edges(nodes: &[Node], out: &mut List<u8>) -> Result<(), NoMemory>
    ensures { OnOk result (out.new ≡ out.old ++ edges nodes.now) }
{
    for (i, node) in nodes.iter().enumerate() {
        push_edges_into(i, node, out)?;
    }
    Ok(())
}

fn push_edges_into(number: usize, node: &Node, out: &mut List<u8>) -> Result<(), NoMemory>
    ensures { OnOk result (out.new ≡ out.old ++ edges_of number node.now) }
{
    let inputs = node.inputs.as_slice();
    for input in inputs {
        push_edge(number, *input as usize, out)?;
    }
    Ok(())
}

fn push_edge(number: usize, input: usize, out: &mut List<u8>) -> Result<(), NoMemory>
    ensures { OnOk result (out.new ≡ out.old ++ edge_of number input) }
{
    out.extend_from_slice(b"  ")?;
    push_id(input, out)?;
    out.extend_from_slice(b" -> ")?;
    push_id(number, out)?;
    push_ended(b";", out)
}
