ghost use Rattle.std.specs.Prelude.{◌≡◌, [], ◌≢◌, ◌≤◌, ◌<◌, ◌++◌, true, None, Some, length, map, IfErr, IfOk};
ghost use Rattle.std.specs.Prelude.{IsSome, IsSomeAnd, OnOk, slice_get};
ghost use Rattle.std.specs.List.{flat_map};
ghost use Rattle.std.specs.Option.{option_map};
ghost use Rattle.beam_values.specs.Checked.{is_state_allowed};
ghost use Rattle.beam_model.specs.Chains.{Arrives, chain};
ghost use Rattle.beam_model.specs.Spread.{first_poison};
ghost use Rattle.beam_model.specs.Steps.{steps};
ghost use Rattle.dofn_traits.specs.Calls.{AddsStep};
ghost use Rattle.stateful_core.specs.Facts.{folded};
ghost use Rattle.stateful_core.specs.KeyWork.{call_outputs, calls_outputs};
ghost use Rattle.chain_exec.specs.Causes.{observed_shelf, IsCallRefused};
ghost use Rattle.chain_exec.specs.KeyCalls.{behind, folded_of, folded_of_job, kept_of, outputs_of_job};
ghost use Rattle.chain_exec.specs.KeyCalls.{state_work_at, state_work_of, IsCallOf, IsStateRefused};
ghost use Rattle.chain_exec.specs.Unused.{IsUnused};

use crate::ExecRefusal;
use crate::buffers::Buffers;
use beam_values::{
    Args, Boxed, Cause, Duplicate, Element, List, LogEntry, LogInput, NoMemory, NodeKind, Span,
    StateKind, Value,
};
use bundle_commit::{Job, Logged, Staging};
use dofn_traits::{CallRefusal, Shelf};
use keyed_state::KeyState;
use pipeline_graph::Graph;
use std::alloc::Global;
use std::marker::Model;
use timer_core::Timers;

/// Calls the function of a key job on its inputs, one after another: stages what each call puts out, and
/// notes the state, the timers and the entries of the log after all of them, under commit 0. The job's own
/// state stays. After a refusal nothing is said of the arrivals.
pub fn run_key<F: Shelf>(
    alloc: Global,
    graph: &Graph,
    shelf: &mut F,
    job: &Job,
    buffers: &mut Buffers,
    staging: &mut Staging,
) -> Result<(), ExecRefusal>
    requires keyed { IsSome (state_work_of graph.now job.now) }
    // What is staged arrives, so nothing of it is poison.
    ensures staged { OnOk result (map Arrives staging.new.arrivals
        ≡ map Arrives staging.old.arrivals ++ outputs_of_job graph.now job.now) }
    ensures logged { OnOk result (IsSomeAnd staging.new.logged
        (λ logged. folded_of_job graph.now job.now ≡ Some (folded_of logged))) }
    ensures seen { staging.new.seen ≡ staging.old.seen }
    ensures refused { IfErr result
        (IsCallRefused (observed_shelf F.strict F.faults shelf.old shelf.new)
        (outputs_of_job graph.now job.now)) }
    ensures unharmed { F.strict shelf.old ≡ true
        → first_poison (outputs_of_job graph.now job.now) ≡ None
        → F.faults shelf.new ≡ F.faults shelf.old }
    ensures counts { F.faults shelf.old ≤ F.faults shelf.new }
    ensures strict { F.strict shelf.new ≡ F.strict shelf.old }
{
    let Job::Key {
        node,
        key,
        span,
        inputs,
        state,
        timers,
        ..
    } = job
    else {
        unreachable!()
    };
    let called = called_at(graph, *node, key, *span);
    let mut calls = Calls {
        state: state.get().copy()?,
        timers: *timers.get(),
        entries: List::new(alloc),
    };
    buffers.clear_lists();
    run_calls(
        alloc,
        &called,
        shelf,
        inputs.get().as_slice(),
        &mut calls,
        buffers,
        staging,
    )?;
    staging.put_logged(logged_of(alloc, calls, timers)?);
    Ok(())
}

/// What the calls so far left, in place. Contracts see it as what is logged of them.
#[derive(Drop)]
struct Calls {
    state: KeyState,
    timers: Timers,
    entries: List<LogEntry>,
}

impl Model for Calls {
    ghost use Rattle.bundle_commit.specs.declared.job.Logged.{Logged};
    ghost use Rattle.bundle_commit.specs.contracts.job.Logged as logged;

    ghost Value = { Logged };

    ghost coded = { logged.the_row.coded };

    ghost view = { λ c. record { state = c.state; timers = c.timers; entries = c.entries } };
}

// What is logged of calls. Mostly the timers stay those of the job, which it shares.
fn logged_of(alloc: Global, calls: Calls, before: &Boxed<Timers>) -> Result<Logged, NoMemory>
    ensures { IfOk result (λ logged. logged ≡ calls) }
{
    let Calls {
        state,
        timers,
        entries,
    } = calls;
    Ok(Logged {
        state: Boxed::new(alloc, state)?,
        timers: kept_or_new(alloc, timers, before)?,
        entries,
    })
}

fn kept_or_new(
    alloc: Global,
    timers: Timers,
    before: &Boxed<Timers>,
) -> Result<Boxed<Timers>, NoMemory>
    ensures { IfOk result (λ boxed. boxed ≡ timers) }
{
    if timers == *before.get() {
        before.share()
    } else {
        Boxed::new(alloc, timers)
    }
}

/// The function that a key job calls, and for which key and window.
#[derive(Clone, Copy)]
struct Called<'a> {
    graph: &'a Graph,
    node: u32,
    work: StateKind,
    args: &'a Args,
    key: &'a Value,
    span: Span,
}

fn called_at<'a>(graph: &'a Graph, node: u32, key: &'a Value, span: Span) -> Called<'a>
    requires { IsSome (state_work_at graph.now node) }
    ensures plan { result.graph.now ≡ graph.now }
    ensures node { result.node ≡ node }
    ensures work { state_work_at graph.now node
        ≡ Some (record { work = result.work; args = result.args.now }) }
    ensures key { result.key.now ≡ key.now }
    ensures span { result.span ≡ span }
    ensures known { node < length graph.now.nodes }
    ensures allowed { is_state_allowed result.work result.args.now ≡ true }
{
    let Some(at) = graph.plan().nodes.get(node as usize) else {
        unreachable!()
    };
    let NodeKind::Stateful { work, args, .. } = &at.kind else {
        unreachable!()
    };
    Called {
        graph,
        node,
        work: *work,
        args,
        key,
        span,
    }
}

// Stages what the calls on these inputs bring, one after another, and logs them behind those before.
fn run_calls<F: Shelf>(
    alloc: Global,
    at: &Called<'_>,
    shelf: &mut F,
    inputs: &[LogInput],
    logged: &mut Calls,
    buffers: &mut Buffers,
    staging: &mut Staging,
) -> Result<(), ExecRefusal>
    requires known { at.now.node < length at.now.graph.now.nodes }
    requires allowed { is_state_allowed at.now.work at.now.args.now ≡ true }
    requires unused { IsUnused buffers.old }
    ensures staged { OnOk result (map Arrives staging.new.arrivals
        ≡ map Arrives staging.old.arrivals ++ calls_outputs at.now.graph.now at.now.node at.now.work
        at.now.args.now at.now.key.now at.now.span inputs.now (kept_of logged.old)) }
    ensures logged { OnOk result (option_map (behind logged.old.entries)
        (folded at.now.work at.now.args.now at.now.key.now at.now.span 0 (kept_of logged.old)
        inputs.now) ≡ Some (folded_of logged.new)) }
    ensures only { staging.new ≡ record staging.old { arrivals = staging.new.arrivals } }
    ensures refused { IfErr result
        (IsCallRefused (observed_shelf F.strict F.faults shelf.old shelf.new)
        (calls_outputs at.now.graph.now at.now.node at.now.work
        at.now.args.now at.now.key.now at.now.span inputs.now (kept_of logged.old))) }
    ensures unharmed { F.strict shelf.old ≡ true
        → first_poison (calls_outputs at.now.graph.now at.now.node at.now.work
        at.now.args.now at.now.key.now at.now.span inputs.now (kept_of logged.old)) ≡ None
        → F.faults shelf.new ≡ F.faults shelf.old }
    ensures counts { F.faults shelf.old ≤ F.faults shelf.new }
    ensures strict { F.strict shelf.new ≡ F.strict shelf.old }
{
    for input in inputs {
        run_call(alloc, at, shelf, input, logged, buffers, staging)?;
    }
    Ok(())
}

fn run_call<F: Shelf>(
    alloc: Global,
    at: &Called<'_>,
    shelf: &mut F,
    input: &LogInput,
    logged: &mut Calls,
    buffers: &mut Buffers,
    staging: &mut Staging,
) -> Result<(), ExecRefusal>
    requires known { at.now.node < length at.now.graph.now.nodes }
    requires allowed { is_state_allowed at.now.work at.now.args.now ≡ true }
    requires unused { IsUnused buffers.old }
    ensures unused { OnOk result (IsUnused buffers.new) }
    ensures called { OnOk result (IsCallOf at.now.graph.now at.now.node
        (steps at.now.work at.now.args.now at.now.key.now at.now.span input.now (kept_of logged.old))
        input.now logged.old logged.new staging.old staging.new) }
    ensures only { staging.new ≡ record staging.old { arrivals = staging.new.arrivals } }
    ensures refused { IfErr result
        (IsCallRefused (observed_shelf F.strict F.faults shelf.old shelf.new)
        (call_outputs at.now.graph.now at.now.node (λ after. [])
        (steps at.now.work at.now.args.now at.now.key.now at.now.span input.now
        (kept_of logged.old)))) }
    ensures unharmed { F.strict shelf.old ≡ true
        → first_poison (call_outputs at.now.graph.now at.now.node (λ after. [])
        (steps at.now.work at.now.args.now at.now.key.now at.now.span input.now
        (kept_of logged.old))) ≡ None
        → F.faults shelf.new ≡ F.faults shelf.old }
    ensures counts { F.faults shelf.old ≤ F.faults shelf.new }
    ensures strict { F.strict shelf.new ≡ F.strict shelf.old }
{
    let mut outputs = List::new(alloc);
    call_state(at, shelf, input, logged, &mut outputs)?;
    let elements = outputs.as_slice();
    send_each(alloc, at.graph, shelf, at.node, elements, buffers, staging)?;
    logged.entries.push(LogEntry {
        input: input.duplicate(alloc)?,
        commit: 0,
        outputs,
    })?;
    Ok(())
}

fn call_state<F: Shelf>(
    at: &Called<'_>,
    shelf: &mut F,
    input: &LogInput,
    logged: &mut Calls,
    out: &mut List<Element>,
) -> Result<(), ExecRefusal>
    requires { is_state_allowed at.now.work at.now.args.now ≡ true }
    ensures step { OnOk result (AddsStep at.now.work at.now.args.now at.now.key.now at.now.span
        input.now (kept_of logged.old) logged.new.state logged.new.timers out.old out.new) }
    ensures entries { logged.new.entries ≡ logged.old.entries }
    ensures refused { IfErr result
        (IsStateRefused (observed_shelf F.strict F.faults shelf.old shelf.new) at.now.node
        (steps at.now.work at.now.args.now at.now.key.now at.now.span input.now
        (kept_of logged.old))) }
    ensures counts { F.faults shelf.old ≤ F.faults shelf.new }
    ensures strict { F.strict shelf.new ≡ F.strict shelf.old }
    ensures unharmed { F.strict shelf.old ≡ true
        → steps at.now.work at.now.args.now at.now.key.now at.now.span input.now
        (kept_of logged.old) ≢ None
        → F.faults shelf.new ≡ F.faults shelf.old }
{
    let Calls { state, timers, .. } = logged;
    match shelf.call_state(at.work, at.args, at.key, at.span, input, state, timers, out) {
        Ok(()) => Ok(()),
        Err(CallRefusal::Failed) => Err(ExecRefusal::Faulted {
            at: at.node,
            cause: Cause::Call,
        }),
        Err(CallRefusal::NoMemory) => Err(ExecRefusal::NoMemory),
    }
}

// Stages what the outputs of a call bring, one after another.
fn send_each<F: Shelf>(
    alloc: Global,
    graph: &Graph,
    shelf: &mut F,
    node: u32,
    elements: &[Element],
    buffers: &mut Buffers,
    staging: &mut Staging,
) -> Result<(), ExecRefusal>
    requires known { node < length graph.now.nodes }
    requires unused { IsUnused buffers.old }
    ensures unused { OnOk result (IsUnused buffers.new) }
    ensures staged { OnOk result (map Arrives staging.new.arrivals
        ≡ map Arrives staging.old.arrivals ++ flat_map (chain graph.now node) elements.now) }
    ensures only { staging.new ≡ record staging.old { arrivals = staging.new.arrivals } }
    ensures refused { IfErr result
        (IsCallRefused (observed_shelf F.strict F.faults shelf.old shelf.new)
        (flat_map (chain graph.now node) elements.now)) }
    ensures unharmed { F.strict shelf.old ≡ true
        → first_poison (flat_map (chain graph.now node) elements.now) ≡ None
        → F.faults shelf.new ≡ F.faults shelf.old }
    ensures counts { F.faults shelf.old ≤ F.faults shelf.new }
    ensures strict { F.strict shelf.new ≡ F.strict shelf.old }
{
    for element in elements {
        let copy = element.copy(alloc)?;
        buffers.send(alloc, graph, shelf, node, copy, staging)?;
    }
    Ok(())
}
