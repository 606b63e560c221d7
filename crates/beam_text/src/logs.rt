ghost use Rattle.std.specs.Prelude.{◌≡◌, ◌++◌, IfOk, OnOk};
ghost use Rattle.std.specs.List.{filter, flat_map};
ghost use Rattle.std.specs.Ordering.{int_cmp, ordering_then};
ghost use Rattle.beam_values.specs.Orders.{value_cmp};
ghost use Rattle.beam_model.specs.Rendering.{IsLogged, input_text, is_logged_kind, is_printed};
ghost use Rattle.beam_model.specs.Rendering.{log_cmp, log_line, log_lines};
ghost use Rattle.beam_text.specs.Parts.{AppendsText, call_place, logs_in};

use crate::element::push_field;
use crate::push_value;
use beam_values::{KeyLog, List, LogEntry, LogInput, NoMemory, NodeKind, Plan, cmp_values};
use itoa::Buffer;
use std::alloc::Global;
use std::cmp::Ordering;

/// Appends the calls of the stateful nodes that are to be printed, by node, key and window.
pub(crate) fn push_logs(
    alloc: Global,
    plan: &Plan,
    logs: &[KeyLog],
    out: &mut List<u8>,
) -> Result<(), NoMemory>
    ensures { OnOk result (AppendsText (IsLogged plan.now logs.now) out.old out.new) }
{
    let mut printed = printed_logs(alloc, plan, logs)?;
    printed.sort_by(|a, b| cmp_log_refs(a, b))?;
    push_sorted_logs(printed.as_slice(), out)
}

fn printed_logs<'a>(
    alloc: Global,
    plan: &Plan,
    logs: &'a [KeyLog],
) -> Result<Vec<&'a KeyLog>, NoMemory>
    ensures { IfOk result
        (λ printed. logs_in printed.items ≡ filter (is_printed plan.now) logs.now) }
{
    let mut printed = Vec::new(alloc);
    for log in logs {
        if is_printed(plan, log) {
            printed.push(log)?;
        }
    }
    Ok(printed)
}

fn is_printed(plan: &Plan, log: &KeyLog) -> bool
    ensures { result ≡ is_printed plan.now log.now }
{
    match plan.nodes.get(log.node as usize) {
        Some(node) => is_logged_kind(&node.kind),
        None => false,
    }
}

fn is_logged_kind(kind: &NodeKind) -> bool
    ensures { result ≡ is_logged_kind kind.now }
{
    match kind {
        NodeKind::Stateful { log, .. } => *log,
        _ => false,
    }
}

fn cmp_log_refs(a: &&KeyLog, b: &&KeyLog) -> Ordering
    ensures { result ≡ log_cmp a.now.now b.now.now }
{
    let a: &KeyLog = a;
    let b: &KeyLog = b;
    cmp_logs(a, b)
}

/// The order of logs: by node, by the bytes that spell the key, and by window.
fn cmp_logs(a: &KeyLog, b: &KeyLog) -> Ordering
    ensures { result ≡ log_cmp a.now b.now }
{
    match a.node.cmp(&b.node) {
        Ordering::Equal => cmp_keys(a, b),
        decided => decided,
    }
}

fn cmp_keys(a: &KeyLog, b: &KeyLog) -> Ordering
    ensures { result ≡ ordering_then (value_cmp a.now.key b.now.key)
        (ordering_then (int_cmp a.now.span.start b.now.span.start)
        (int_cmp a.now.span.end b.now.span.end)) }
{
    match cmp_values(&a.key, &b.key) {
        Ordering::Equal => {
            let by_start = a.span.start().cmp(&b.span.start());
            by_start.then(a.span.end().cmp(&b.span.end()))
        }
        decided => decided,
    }
}

fn push_sorted_logs(logs: &[&KeyLog], out: &mut List<u8>) -> Result<(), NoMemory>
    ensures { OnOk result (out.new ≡ out.old ++ flat_map log_lines (logs_in logs.now)) }
{
    for log in logs {
        push_log(log, out)?;
    }
    Ok(())
}

fn push_log(log: &KeyLog, out: &mut List<u8>) -> Result<(), NoMemory>
    ensures { OnOk result (out.new ≡ out.old ++ log_lines log.now) }
{
    for entry in log.entries.as_slice() {
        push_log_entry(log, entry, out)?;
    }
    Ok(())
}

fn push_log_entry(log: &KeyLog, entry: &LogEntry, out: &mut List<u8>) -> Result<(), NoMemory>
    ensures { OnOk result (out.new ≡ out.old ++ log_line log.now entry.now) }
{
    push_call_place(log, out)?;
    push_value(&log.key, out)?;
    out.push(b'\t')?;
    push_input(&entry.input, out)?;
    out.push(b'\n')
}

// The node and the window of a call, with a TAB after each.
fn push_call_place(log: &KeyLog, out: &mut List<u8>) -> Result<(), NoMemory>
    ensures { OnOk result (out.new ≡ out.old ++ call_place log.now) }
{
    let mut digits = Buffer::new();
    push_field(b"log", out)?;
    push_field(digits.format(log.node).as_bytes(), out)?;
    push_field(digits.format(log.span.start()).as_bytes(), out)?;
    push_field(digits.format(log.span.end()).as_bytes(), out)
}

fn push_input(input: &LogInput, out: &mut List<u8>) -> Result<(), NoMemory>
    ensures { OnOk result (out.new ≡ out.old ++ input_text input.now) }
{
    let mut digits = Buffer::new();
    match input {
        LogInput::Arrived(element) => {
            push_field(b"element", out)?;
            push_field(digits.format(element.time.ms()).as_bytes(), out)?;
            push_value(&element.value, out)
        }
        LogInput::Fired(timer) => {
            push_field(b"timer", out)?;
            push_field(digits.format(timer.name).as_bytes(), out)?;
            out.extend_from_slice(digits.format(timer.time.ms()).as_bytes())
        }
    }
}
