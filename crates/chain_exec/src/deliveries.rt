ghost use Rattle.std.specs.Prelude.{◌≡◌, ◌≢◌, ◌<◌, ◌++◌, [], false, length, map, reverse, OnOk, IfOk};
ghost use Rattle.std.specs.List.{flat_map};
ghost use Rattle.chain_exec.specs.Deliveries.{deliveries_to, element_of, on_way};
ghost use Rattle.chain_exec.specs.Passing.{in_window};

use beam_values::{Element, List, NoMemory, PaneTag, Span, Time, Timing, Value};
use dofn_traits::Timed;
use std::alloc::Global;
use std::mem;

/// An element on its way to a node that takes it.
#[derive(Debug, Drop)]
pub struct Delivery {
    pub node: u32,
    pub element: Element,
}

/// Puts the element of `next` on its way to each of these nodes, the first of them on top of the stack. To an
/// only node it goes on in its own place, and is not pushed: the answer is whether it does, and then it is
/// next, as if it lay on top.
pub fn forward(
    alloc: Global,
    nodes: &[u32],
    next: &mut Delivery,
    stack: &mut List<Delivery>,
) -> Result<bool, NoMemory>
    ensures { IfOk result (λ goes_on. stack.new ++ on_way goes_on next.new
        ≡ stack.old ++ reverse (deliveries_to nodes.now next.old.element)) }
{
    if let [node] = nodes {
        next.node = *node;
        return Ok(true);
    }
    deliver(alloc, nodes, take_element(next), stack)?;
    Ok(false)
}

/// The same for each of these elements in its place, the first of them on top. Empties their list.
pub fn forward_each(
    alloc: Global,
    nodes: &[u32],
    elements: &mut List<Element>,
    next: &mut Delivery,
    stack: &mut List<Delivery>,
) -> Result<bool, NoMemory>
    ensures stack { IfOk result (λ goes_on. stack.new ++ on_way goes_on next.new
        ≡ stack.old ++ reverse (flat_map (deliveries_to nodes.now) elements.old)) }
    ensures used { OnOk result (elements.new ≡ []) }
{
    while elements.len() > 1 {
        deliver_last(alloc, nodes, elements, stack)?;
    }
    match elements.pop() {
        Some(first) => {
            next.element = first;
            forward(alloc, nodes, next, stack)
        }
        None => Ok(false),
    }
}

/// The same for the element once in each of these windows. For the first window it stays in its place; for
/// each other one it is copied. Empties their list.
pub fn forward_in_windows(
    alloc: Global,
    nodes: &[u32],
    windows: &mut List<Span>,
    next: &mut Delivery,
    stack: &mut List<Delivery>,
) -> Result<bool, NoMemory>
    ensures stack { IfOk result (λ goes_on. stack.new ++ on_way goes_on next.new
        ≡ stack.old ++ reverse (flat_map (deliveries_to nodes.now)
        (map (in_window next.old.element) windows.old))) }
    ensures used { OnOk result (windows.new ≡ []) }
{
    while windows.len() > 1 {
        deliver_in_last_window(alloc, nodes, windows, &next.element, stack)?;
    }
    match windows.pop() {
        Some(span) => {
            next.element.span = span;
            forward(alloc, nodes, next, stack)
        }
        None => Ok(false),
    }
}

/// The same for each value that a source emitted, as an element. Empties their list.
pub fn forward_values(
    alloc: Global,
    nodes: &[u32],
    values: &mut List<Timed>,
    next: &mut Delivery,
    stack: &mut List<Delivery>,
) -> Result<bool, NoMemory>
    ensures stack { IfOk result (λ goes_on. stack.new ++ on_way goes_on next.new
        ≡ stack.old ++ reverse (flat_map (deliveries_to nodes.now) (map element_of values.old))) }
    ensures used { OnOk result (values.new ≡ []) }
{
    while values.len() > 1 {
        deliver_last_value(alloc, nodes, values, stack)?;
    }
    match values.pop() {
        Some(first) => {
            next.element = element_of(first);
            forward(alloc, nodes, next, stack)
        }
        None => Ok(false),
    }
}

/// Answers whether anything is on its way. If `next` doesn't go on, it is what is on top of the stack.
pub fn take_next(goes_on: bool, next: &mut Delivery, stack: &mut List<Delivery>) -> bool
    ensures same { stack.new ++ on_way result next.new ≡ stack.old ++ on_way goes_on next.old }
    ensures none { result ≡ false → stack.new ≡ [] }
{
    if goes_on {
        return true;
    }
    match stack.pop() {
        Some(top) => {
            *next = top;
            true
        }
        None => false,
    }
}

/// Takes the element out of a delivery that is done. One without a value stays in its place.
pub fn take_element(done: &mut Delivery) -> Element
    ensures element { result ≡ done.old.element }
    ensures node { done.new.node ≡ done.old.node }
{
    mem::replace(&mut done.element, no_element())
}

/// An element without a value.
pub fn no_element() -> Element {
    element_of(Timed {
        value: Value::Null,
        time: Time::LEAST,
    })
}

// Takes the last element out, and puts it on the stack for each of these nodes.
fn deliver_last(
    alloc: Global,
    nodes: &[u32],
    elements: &mut List<Element>,
    stack: &mut List<Delivery>,
) -> Result<(), NoMemory>
    requires some { elements.old ≢ [] }
    ensures stack { OnOk result (stack.new ++ reverse (flat_map (deliveries_to nodes.now) elements.new)
        ≡ stack.old ++ reverse (flat_map (deliveries_to nodes.now) elements.old)) }
    ensures less { length elements.new < length elements.old }
{
    let Some(element) = elements.pop() else {
        unreachable!()
    };
    deliver(alloc, nodes, element, stack)
}

// Takes the last window out, and puts a copy of the element in it on the stack for each of these nodes.
fn deliver_in_last_window(
    alloc: Global,
    nodes: &[u32],
    windows: &mut List<Span>,
    element: &Element,
    stack: &mut List<Delivery>,
) -> Result<(), NoMemory>
    requires some { windows.old ≢ [] }
    ensures stack { OnOk result (stack.new
        ++ reverse (flat_map (deliveries_to nodes.now) (map (in_window element.now) windows.new))
        ≡ stack.old
        ++ reverse (flat_map (deliveries_to nodes.now) (map (in_window element.now) windows.old))) }
    ensures less { length windows.new < length windows.old }
{
    let Some(span) = windows.pop() else {
        unreachable!()
    };
    let copy = element.copy(alloc)?;
    deliver(alloc, nodes, Element { span, ..copy }, stack)
}

// Takes the last value out, and puts it on the stack as an element for each of these nodes.
fn deliver_last_value(
    alloc: Global,
    nodes: &[u32],
    values: &mut List<Timed>,
    stack: &mut List<Delivery>,
) -> Result<(), NoMemory>
    requires some { values.old ≢ [] }
    ensures stack { OnOk result (stack.new
        ++ reverse (flat_map (deliveries_to nodes.now) (map element_of values.new))
        ≡ stack.old ++ reverse (flat_map (deliveries_to nodes.now) (map element_of values.old))) }
    ensures less { length values.new < length values.old }
{
    let Some(timed) = values.pop() else {
        unreachable!()
    };
    deliver(alloc, nodes, element_of(timed), stack)
}

// Puts an element on the stack for each of these nodes, the first of them on top. For one node it is
// moved; for each other one it is copied.
fn deliver(
    alloc: Global,
    nodes: &[u32],
    element: Element,
    stack: &mut List<Delivery>,
) -> Result<(), NoMemory>
    ensures { OnOk result (stack.new ≡ stack.old ++ reverse (deliveries_to nodes.now element)) }
{
    let Some((first, others)) = nodes.split_first() else {
        return Ok(());
    };
    let mut rest = others;
    while let Some((last, before)) = rest.split_last() {
        stack.push(Delivery {
            node: *last,
            element: element.copy(alloc)?,
        })?;
        rest = before;
    }
    stack.push(Delivery {
        node: *first,
        element,
    })
}

// An element as it comes from a source.
fn element_of(timed: Timed) -> Element
    ensures { result ≡ element_of timed }
{
    let Timed { value, time } = timed;
    Element {
        value,
        time,
        span: Span::between(Time::LEAST_MS, Time::GREATEST_MS + 1),
        pane: PaneTag {
            timing: Timing::Unknown,
            index: 0,
        },
    }
}
