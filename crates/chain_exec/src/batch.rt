ghost use Rattle.std.specs.Prelude.{◌≡◌, ◌≤◌, ◌<◌, ◌++◌, true, None, length, map, IfErr, OnOk};
ghost use Rattle.beam_model.specs.Chains.{Arrives};
ghost use Rattle.beam_model.specs.Spread.{first_poison};
ghost use Rattle.beam_model.specs.Flow.{batch_outputs};
ghost use Rattle.chain_exec.specs.Causes.{observed_shelf, IsCallRefused};

use crate::ExecRefusal;
use crate::buffers::Buffers;
use beam_values::Pane;
use bundle_commit::Staging;
use dofn_traits::Shelf;
use pipeline_graph::Graph;
use std::alloc::Global;

/// Stages what the panes of a Group bring, one after another. `node` is the Group. After a refusal
/// nothing is said of what was staged.
pub fn run_batch<F: Shelf>(
    alloc: Global,
    graph: &Graph,
    shelf: &mut F,
    node: u32,
    panes: &[Pane],
    buffers: &mut Buffers,
    staging: &mut Staging,
) -> Result<(), ExecRefusal>
    requires known { node < length graph.now.nodes }
    // What is staged arrives, so nothing of it is poison.
    ensures staged { OnOk result (map Arrives staging.new.arrivals
        ≡ map Arrives staging.old.arrivals ++ batch_outputs graph.now node panes.now) }
    ensures only { staging.new ≡ record staging.old { arrivals = staging.new.arrivals } }
    ensures refused { IfErr result
        (IsCallRefused (observed_shelf F.strict F.faults shelf.old shelf.new)
        (batch_outputs graph.now node panes.now)) }
    ensures unharmed { F.strict shelf.old ≡ true
        → first_poison (batch_outputs graph.now node panes.now) ≡ None
        → F.faults shelf.new ≡ F.faults shelf.old }
    ensures counts { F.faults shelf.old ≤ F.faults shelf.new }
    ensures strict { F.strict shelf.new ≡ F.strict shelf.old }
{
    buffers.clear_lists();
    for pane in panes {
        let element = pane.element.copy(alloc)?;
        buffers.send(alloc, graph, shelf, node, element, staging)?;
    }
    Ok(())
}
