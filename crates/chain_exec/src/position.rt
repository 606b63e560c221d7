ghost use Rattle.std.specs.Prelude.{◌≡◌, ◌≤◌, ◌<◌, ℕ, List, None, true, map, IsSome, IfErr, IfOk};
ghost use Rattle.std.specs.Prelude.{OnErr};
ghost use Rattle.std.specs.List.{All};
ghost use Rattle.std.specs.Option.{ForSome};
ghost use Rattle.beam_values.specs.Times.{IsTime};
ghost use Rattle.beam_model.specs.Positions as model;
ghost use Rattle.beam_model.specs.Spread.{first_poison};
ghost use Rattle.beam_model.specs.Estimators.{latest_time, later_time};
ghost use Rattle.beam_ports.specs.Files.{KeepsOpenings};
ghost use Rattle.dofn_traits.specs.Calls.{timed_value};
ghost use Rattle.chain_exec.specs.Causes.{observed_shelf};
ghost use Rattle.chain_exec.specs.Positions.{IsEmissionAt, IsNextOf, IsPositionRefused, IsWorked};
ghost use Rattle.chain_exec.specs.Positions.{outputs_in};
ghost use Rattle.chain_exec.specs.Sources.{IsCounted, IsEnoughAt, IsHeldFor, IsLeanAt, IsText};
ghost use Rattle.chain_exec.specs.Sources.{IsLeanOrLess, KeepsBytes, source_at};

use crate::ExecRefusal;
use crate::buffers::Buffers;
use crate::source::{source_of, work_source};
use beam_ports::Store;
use beam_values::Time;
use bundle_commit::Staging;
use dofn_traits::{Shelf, Timed};
use pipeline_graph::Graph;
use sdf_library::Pager;
use std::alloc::Global;

/// What work on a position answered.
#[derive(Clone, Copy, Debug, PartialEq, Eq)]
pub struct Step {
    /// The position to work next.
    pub next: u64,
    /// Whether the position emitted a value.
    pub emitted: bool,
}

/// Works the position `p` of an item of a source: stages what it brings to the barriers, and notes it for
/// the source's estimator. The pager is that of the item; of what is counted or made it has the length
/// alone. After a refusal the staging is as it was.
pub fn run_position<F: Shelf, S: Store>(
    alloc: Global,
    graph: &Graph,
    node: u32,
    shelf: &mut F,
    store: &mut S,
    pager: &mut Pager,
    p: u64,
    buffers: &mut Buffers,
    staging: &mut Staging,
) -> Result<Step, ExecRefusal>
    requires source { IsSome (source_at graph.now node) }
    requires inside { p < pager.old.len }
    requires counted { ForSome (source_at graph.now node) (λ source. IsCounted source pager.old) }
    requires held { ForSome (source_at graph.now node)
        (λ source. IsHeldFor source.work (S.opened store.old pager.old.file) pager.old) }
    // What was staged is that of one emission: of the position's, where the item's text is known.
    ensures worked { IfOk result (λ step. (emitted : model.Emission)
        × IsWorked graph.now node emitted staging.old staging.new step
        × ForSome (source_at graph.now node) (λ source. IsEmissionAt source
        (S.opened store.old pager.old.file) pager.old.len p emitted step.next)) }
    ensures next { IfOk result (λ step. IsNextOf p pager.old.len step.next) }
    ensures undone { OnErr result (staging.new ≡ staging.old) }
    ensures refused { IfErr result (λ refusal. ForSome (source_at graph.now node) (λ source.
        IsPositionRefused (observed_shelf F.strict F.faults shelf.old shelf.new)
        (record { before = S.faults store.old; after = S.faults store.new })
        graph.now node source (S.opened store.old pager.old.file) pager.old.len p refusal)) }
    ensures unharmed { F.strict shelf.old ≡ true
        → ForSome (source_at graph.now node) (λ source. (text : List ℕ)
        → IsText source.work (S.opened store.old pager.old.file) pager.old.len text
        → first_poison (outputs_in graph.now node source text p) ≡ None
        → F.faults shelf.new ≡ F.faults shelf.old) }
    ensures counts { F.faults shelf.old ≤ F.faults shelf.new }
    ensures strict { F.strict shelf.new ≡ F.strict shelf.old }
    // What is held already isn't read again.
    ensures enough { ForSome (source_at graph.now node) (λ source. IsEnoughAt source pager.old p
        → KeepsBytes pager.old pager.new × (store.new ≡ store.old)) }
    ensures bounded { IfOk result (λ _. ForSome (source_at graph.now node)
        (λ source. IsLeanAt source pager.new p)) }
    ensures given_up { IfErr result (λ _. ForSome (source_at graph.now node)
        (λ source. IsLeanOrLess source p pager.old pager.new)) }
    // After every answer:
    ensures file { pager.new.file ≡ pager.old.file }
    ensures len { pager.new.len ≡ pager.old.len }
    ensures held { ForSome (source_at graph.now node)
        (λ source. IsHeldFor source.work (S.opened store.new pager.new.file) pager.new) }
    ensures files { S.files store.new ≡ S.files store.old }
    ensures kept { KeepsOpenings (S.opened store.old) (S.opened store.new) }
    ensures store_counts { S.faults store.old ≤ S.faults store.new }
{
    buffers.clear();
    let source = source_of(graph, node);
    let emission = &mut buffers.emission;
    let next = work_source(
        node,
        source.work,
        source.args,
        shelf,
        store,
        pager,
        p,
        emission,
    )?;
    let (count, seen) = (staging.len(), staging.seen());
    let values = buffers.emission.items.as_slice();
    let emitted = !values.is_empty();
    staging.observe(
        source.estimator,
        latest_time(values),
        buffers.emission.declared,
    );
    match buffers.send_emission(alloc, graph, shelf, node, staging) {
        Ok(()) => Ok(Step { next, emitted }),
        Err(refusal) => {
            staging.back_to(count, seen);
            Err(refusal)
        }
    }
}

// The greatest time of some values.
fn latest_time(values: &[Timed]) -> Option<Time>
    ensures latest { result ≡ latest_time (map timed_value values.now) }
    ensures timely { All (λ value. IsTime value.time) (map timed_value values.now) }
{
    let mut latest = None;
    for timed in values {
        latest = later_time(latest, timed.time);
    }
    latest
}

fn later_time(latest: Option<Time>, time: Time) -> Option<Time>
    ensures later { (timed : model.TimedValue)
        → timed.time ≡ time → result ≡ later_time latest timed }
    ensures within { IsTime time }
{
    let _ms = time.ms();
    match latest {
        Some(other) if other > time => Some(other),
        _ => Some(time),
    }
}
