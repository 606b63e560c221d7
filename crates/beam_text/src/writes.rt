ghost use Rattle.std.specs.Prelude.{◌≡◌, ◌++◌, ◌∷◌, [], ◌<◌, ℕ, IfOk, OnOk, count_by, length};
ghost use Rattle.std.specs.Prelude.{IfSome, nat_lt, slice_index_or};
ghost use Rattle.std.specs.List.{flat_map};
ghost use Rattle.std.specs.List.Sorted.{IsPermutation, IsSorted};
ghost use Rattle.beam_values.specs.Elements.{element_cmp};
ghost use Rattle.beam_values.specs.Nodes.{is_write_kind};
ghost use Rattle.beam_values.specs.Texts.{element_line};
ghost use Rattle.beam_model.specs.Rendering.{IsLines, IsWritten, title, writes};
ghost use Rattle.beam_text.specs.Parts.{AppendsText, IsByNode, IsNodeText, contents, elements_in};
ghost use Rattle.beam_text.specs.Parts.{line_front};

use crate::element::{has_same_front, push_front, push_line};
use crate::push_blob;
use crate::ranks::{sort_by_ranks, sort_by_windows};
use beam_values::{Arrival, Element, List, NoMemory, Node, NodeKind, Plan};
use std::alloc::Global;

/// Appends what the Writes of a plan took, in number order.
pub(crate) fn push_writes(
    alloc: Global,
    plan: &Plan,
    written: &[Arrival],
    out: &mut List<u8>,
) -> Result<(), NoMemory>
    ensures { OnOk result
        (AppendsText (IsWritten (nat_lt 1 (length (writes plan.now))) written.now (writes plan.now))
        out.old out.new) }
{
    let nodes = plan.nodes.as_slice();
    let labelled = write_count(nodes) > 1;
    let mut lists = elements_by_node(alloc, nodes.len(), written)?;
    for (i, node) in nodes.iter().enumerate() {
        let elements = &mut lists[i];
        push_node(alloc, labelled, &node.kind, elements, out)?;
    }
    Ok(())
}

fn write_count(nodes: &[Node]) -> usize
    ensures { result ≡ count_by (λ node. is_write_kind node.kind) nodes.now }
{
    let mut count = 0;
    for node in nodes {
        if node.kind.is_write() {
            count += 1;
        }
    }
    count
}

/// For each node the elements that arrived at it, in the order in which they came: one list a node,
/// so that an element finds its own by number.
fn elements_by_node<'a>(
    alloc: Global,
    node_count: usize,
    written: &'a [Arrival],
) -> Result<Vec<Vec<&'a Element>>, NoMemory>
    ensures { IfOk result (λ lists. IsByNode node_count written.now lists.items) }
{
    let mut lists = empty_lists(alloc, node_count)?;
    for arrival in written {
        push_at(&mut lists, arrival.node as usize, &arrival.element)?;
    }
    Ok(lists)
}

fn empty_lists<'a>(alloc: Global, count: usize) -> Result<Vec<Vec<&'a Element>>, NoMemory>
    ensures { IfOk result (λ lists. IsByNode count [] lists.items) }
{
    let mut lists = Vec::with_capacity(alloc, count)?;
    for _ in 0..count {
        lists.push(Vec::new(alloc))?;
    }
    Ok(lists)
}

/// Adds an element to the list of its node, where the node has one.
fn push_at<'a>(
    lists: &mut Vec<Vec<&'a Element>>,
    node: usize,
    element: &'a Element,
) -> Result<(), NoMemory>
    ensures count { OnOk result (length lists.new.items ≡ length lists.old.items) }
    ensures added { OnOk result
        (node < length lists.old.items → slice_index_or (contents lists.new.items) node []
        ≡ slice_index_or (contents lists.old.items) node [] ++ element.now ∷ []) }
    ensures others { OnOk result
        ((other : ℕ) → (other ≡ node → ⊥) → slice_index_or (contents lists.new.items) other []
        ≡ slice_index_or (contents lists.old.items) other []) }
{
    if node < lists.len() {
        let list = &mut lists[node];
        list.push(element)?;
    }
    Ok(())
}

/// Appends the text of a node at which these elements arrived. Only a Write has one.
fn push_node(
    alloc: Global,
    labelled: bool,
    kind: &NodeKind,
    elements: &mut Vec<&Element>,
    out: &mut List<u8>,
) -> Result<(), NoMemory>
    ensures { OnOk result (AppendsText
        (IsNodeText labelled kind.now (elements_in elements.old.items)) out.old out.new) }
{
    if let NodeKind::Write { label } = kind {
        push_title(labelled, label.as_slice(), out)?;
        push_lines(alloc, elements, out)?;
    }
    Ok(())
}

fn push_title(labelled: bool, label: &[u8], out: &mut List<u8>) -> Result<(), NoMemory>
    ensures { OnOk result (out.new ≡ out.old ++ title labelled label.now) }
{
    if labelled {
        out.extend_from_slice(b"# ")?;
        push_blob(label, out)?;
        out.push(b'\n')?;
    }
    Ok(())
}

/// Appends the lines of elements in ascending order.
fn push_lines(
    alloc: Global,
    elements: &mut Vec<&Element>,
    out: &mut List<u8>,
) -> Result<(), NoMemory>
    ensures { OnOk result (AppendsText (IsLines (elements_in elements.old.items)) out.old out.new) }
{
    sort_elements(elements)?;
    push_sorted(alloc, elements.as_slice(), out)
}

/// Elements that came key by key are in order once they are sorted by their windows. Others are brought
/// near to it by their ranks first.
fn sort_elements(elements: &mut Vec<&Element>) -> Result<(), NoMemory>
    ensures moved { OnOk result (IsPermutation elements.old.items elements.new.items) }
    ensures sorted { OnOk result (IsSorted (λ x y. element_cmp x.now y.now) elements.new.items) }
{
    sort_by_windows(elements);
    if !elements.as_slice().is_sorted() {
        sort_by_ranks(elements);
        elements.sort()?;
    }
    Ok(())
}

fn push_sorted(alloc: Global, elements: &[&Element], out: &mut List<u8>) -> Result<(), NoMemory>
    ensures { OnOk result (out.new ≡ out.old ++ flat_map element_line (elements_in elements.now)) }
{
    let mut front = List::new(alloc);
    let mut before = None;
    for element in elements {
        let element: &Element = element;
        renew_front(before, element, &mut front)?;
        before = Some(element);
        push_line(front.as_slice(), &element.value, out)?;
    }
    Ok(())
}

/// Puts the front of an element's line in place of that of the element before, which mostly is the same.
fn renew_front(
    before: Option<&Element>,
    element: &Element,
    front: &mut List<u8>,
) -> Result<(), NoMemory>
    requires { IfSome before (λ before. front.old ≡ line_front before.now) }
    ensures { OnOk result (front.new ≡ line_front element.now) }
{
    match before {
        Some(before) if has_same_front(before, element) => Ok(()),
        _ => {
            front.truncate(0);
            push_front(element, front)
        }
    }
}
