ghost use Rattle.std.specs.Prelude.{◌≡◌, ◌≢◌, ◌≤◌, ◌<◌, ◌+◌, ◌++◌, [], ◌∷◌, true, None, length};
ghost use Rattle.std.specs.Prelude.{map, take, IfErr, IfOk, OnOk, OnErr};
ghost use Rattle.beam_values.specs.Checked.{is_function_allowed};
ghost use Rattle.beam_values.specs.declared.plan.NodeKind.TheVariants.{ParDo};
ghost use Rattle.beam_model.specs.Chains.{Arrives, chain};
ghost use Rattle.beam_model.specs.Functions.{emits};
ghost use Rattle.beam_model.specs.Spread.{emission_outputs, first_poison};
ghost use Rattle.dofn_traits.specs.Calls.{AddsOutputs};
ghost use Rattle.pipeline_graph.specs.Rules.{HasSettings};
ghost use Rattle.chain_exec.specs.Causes.{observed_shelf, IsCallRefused};
ghost use Rattle.chain_exec.specs.Deliveries.{on_way, outputs_of_delivery, outputs_of_stack};
ghost use Rattle.chain_exec.specs.Passing.{put_out, stops_of, stops_of_all, IsPassRefused, Passes};
ghost use Rattle.chain_exec.specs.Positions.{emission_of};
ghost use Rattle.chain_exec.specs.Unused.{IsUnused};

use crate::ExecRefusal;
use crate::buffers::Buffers;
use crate::deliveries::{
    Delivery, forward, forward_each, forward_in_windows, forward_values, take_element, take_next,
};
use beam_values::{Args, Cause, Element, FnKind, List, NoMemory, NodeKind};
use bundle_commit::Staging;
use dofn_traits::{CallRefusal, Shelf};
use pipeline_graph::Graph;
use std::alloc::Global;
use windowing::assign;

impl Buffers {
    /// Stages what an output of a node brings to the barriers. The buffers are unused before and after.
    pub(crate) fn send<F: Shelf>(
        &mut self,
        alloc: Global,
        graph: &Graph,
        shelf: &mut F,
        node: u32,
        element: Element,
        staging: &mut Staging,
    ) -> Result<(), ExecRefusal>
        requires known { node < length graph.now.nodes }
        requires unused { IsUnused self.old }
        ensures unused { OnOk result (IsUnused self.new) }
        ensures staged { OnOk result (map Arrives staging.new.arrivals
            ≡ map Arrives staging.old.arrivals ++ chain graph.now node element) }
        ensures only { staging.new ≡ record staging.old { arrivals = staging.new.arrivals } }
        ensures refused { IfErr result (IsCallRefused
            (observed_shelf F.strict F.faults shelf.old shelf.new) (chain graph.now node element)) }
        ensures counts { F.faults shelf.old ≤ F.faults shelf.new }
        ensures strict { F.strict shelf.new ≡ F.strict shelf.old }
        ensures unharmed { F.strict shelf.old ≡ true
            → first_poison (chain graph.now node element) ≡ None
            → F.faults shelf.new ≡ F.faults shelf.old }
    {
        self.next.element = element;
        let goes_on = forward(
            alloc,
            graph.followers(node),
            &mut self.next,
            &mut self.stack,
        )?;
        self.carry(alloc, graph, shelf, goes_on, staging)
    }

    /// Stages what the emission that is held brings, from the source of this number.
    pub(crate) fn send_emission<F: Shelf>(
        &mut self,
        alloc: Global,
        graph: &Graph,
        shelf: &mut F,
        node: u32,
        staging: &mut Staging,
    ) -> Result<(), ExecRefusal>
        requires known { node < length graph.now.nodes }
        requires unused { IsUnused self.old }
        ensures staged { OnOk result
            (map Arrives staging.new.arrivals ≡ map Arrives staging.old.arrivals
            ++ emission_outputs graph.now node (emission_of self.old.emission)) }
        ensures only { staging.new ≡ record staging.old { arrivals = staging.new.arrivals } }
        ensures front { take (length staging.old.arrivals) staging.new.arrivals
            ≡ staging.old.arrivals }
        ensures refused { IfErr result
            (IsCallRefused (observed_shelf F.strict F.faults shelf.old shelf.new)
            (emission_outputs graph.now node (emission_of self.old.emission))) }
        ensures counts { F.faults shelf.old ≤ F.faults shelf.new }
        ensures strict { F.strict shelf.new ≡ F.strict shelf.old }
        ensures unharmed { F.strict shelf.old ≡ true
            → first_poison (emission_outputs graph.now node (emission_of self.old.emission)) ≡ None
            → F.faults shelf.new ≡ F.faults shelf.old }
    {
        let followers = graph.followers(node);
        let values = &mut self.emission.items;
        let goes_on = forward_values(alloc, followers, values, &mut self.next, &mut self.stack)?;
        self.carry(alloc, graph, shelf, goes_on, staging)
    }

    // Takes what is on its way to the barriers, depth first, and stages it there: what is next, if it goes
    // on, and then what is on the stack.
    fn carry<F: Shelf>(
        &mut self,
        alloc: Global,
        graph: &Graph,
        shelf: &mut F,
        goes_on: bool,
        staging: &mut Staging,
    ) -> Result<(), ExecRefusal>
        requires outputs { self.old.outputs ≡ [] }
        requires windows { self.old.windows ≡ [] }
        ensures unused { OnOk result (IsUnused self.new) }
        ensures staged { OnOk result (map Arrives staging.new.arrivals
            ≡ map Arrives staging.old.arrivals
            ++ outputs_of_stack graph.now (self.old.stack ++ on_way goes_on self.old.next)) }
        ensures only { staging.new ≡ record staging.old { arrivals = staging.new.arrivals } }
        ensures front { take (length staging.old.arrivals) staging.new.arrivals
            ≡ staging.old.arrivals }
        ensures refused { IfErr result
            (IsCallRefused (observed_shelf F.strict F.faults shelf.old shelf.new)
            (outputs_of_stack graph.now (self.old.stack ++ on_way goes_on self.old.next))) }
        ensures counts { F.faults shelf.old ≤ F.faults shelf.new }
        ensures strict { F.strict shelf.new ≡ F.strict shelf.old }
        ensures unharmed { F.strict shelf.old ≡ true
            → first_poison (outputs_of_stack graph.now (self.old.stack ++ on_way goes_on self.old.next)) ≡ None
            → F.faults shelf.new ≡ F.faults shelf.old }
    {
        let mut goes_on = goes_on;
        'elements: while take_next(goes_on, &mut self.next, &mut self.stack) {
            goes_on = self.take(alloc, graph, shelf, staging)?;
        }
        Ok(())
    }

    // Takes what is next at its node, and answers whether it goes on, before what is on the stack.
    fn take<F: Shelf>(
        &mut self,
        alloc: Global,
        graph: &Graph,
        shelf: &mut F,
        staging: &mut Staging,
    ) -> Result<bool, ExecRefusal>
        requires outputs { self.old.outputs ≡ [] }
        requires windows { self.old.windows ≡ [] }
        ensures outputs { OnOk result (self.new.outputs ≡ []) }
        ensures windows { OnOk result (self.new.windows ≡ []) }
        ensures staged { IfOk result (λ goes_on. map Arrives staging.new.arrivals
            ++ outputs_of_stack graph.now (self.new.stack ++ on_way goes_on self.new.next)
            ≡ map Arrives staging.old.arrivals ++ (outputs_of_delivery graph.now self.old.next
            ++ outputs_of_stack graph.now self.old.stack)) }
        ensures less { IfOk result (λ goes_on.
            stops_of_all graph.now (self.new.stack ++ on_way goes_on self.new.next)
            < stops_of graph.now self.old.next + stops_of_all graph.now self.old.stack) }
        ensures only { staging.new ≡ record staging.old { arrivals = staging.new.arrivals } }
        ensures front { take (length staging.old.arrivals) staging.new.arrivals
            ≡ staging.old.arrivals }
        ensures refused { IfErr result
            (IsCallRefused (observed_shelf F.strict F.faults shelf.old shelf.new)
            (outputs_of_delivery graph.now self.old.next)) }
        ensures counts { F.faults shelf.old ≤ F.faults shelf.new }
        ensures strict { F.strict shelf.new ≡ F.strict shelf.old }
        ensures unharmed { F.strict shelf.old ≡ true
            → first_poison (outputs_of_delivery graph.now self.old.next) ≡ None
            → F.faults shelf.new ≡ F.faults shelf.old }
    {
        // An element is on its way to nodes of the plan alone.
        let Some(at) = graph.plan().nodes.get(self.next.node as usize) else {
            return Ok(false);
        };
        let followers = graph.followers(self.next.node);
        self.pass(alloc, &at.kind, followers, shelf, staging)
    }

    // Lets what is next pass a node of this kind: at a barrier it is staged, and what another node makes of
    // it is put on its way to the followers. Answers whether what is next then goes on.
    fn pass<F: Shelf>(
        &mut self,
        alloc: Global,
        kind: &NodeKind,
        followers: &[u32],
        shelf: &mut F,
        staging: &mut Staging,
    ) -> Result<bool, ExecRefusal>
        requires settings { HasSettings kind.now }
        requires outputs { self.old.outputs ≡ [] }
        requires windows { self.old.windows ≡ [] }
        ensures outputs { OnOk result (self.new.outputs ≡ []) }
        ensures windows { OnOk result (self.new.windows ≡ []) }
        ensures passed { IfOk result (λ goes_on. Passes self.old.next.node kind.now followers.now self.old.next.element
            self.old.stack (self.new.stack ++ on_way goes_on self.new.next)
            staging.old.arrivals staging.new.arrivals) }
        ensures only { staging.new ≡ record staging.old { arrivals = staging.new.arrivals } }
        ensures front { take (length staging.old.arrivals) staging.new.arrivals
            ≡ staging.old.arrivals }
        ensures refused { IfErr result (IsPassRefused
            (observed_shelf F.strict F.faults shelf.old shelf.new) self.old.next.node kind.now self.old.next.element) }
        ensures counts { F.faults shelf.old ≤ F.faults shelf.new }
        ensures strict { F.strict shelf.new ≡ F.strict shelf.old }
        ensures unharmed { F.strict shelf.old ≡ true → put_out kind.now self.old.next.element ≢ None
            → F.faults shelf.new ≡ F.faults shelf.old }
    {
        match kind {
            NodeKind::Source { .. } => Ok(false),
            NodeKind::ParDo { work, args } => {
                let Delivery { node, element } = &self.next;
                call_function(*node, *work, args, shelf, element, &mut self.outputs)?;
                Ok(forward_each(
                    alloc,
                    followers,
                    &mut self.outputs,
                    &mut self.next,
                    &mut self.stack,
                )?)
            }
            NodeKind::Flatten => Ok(forward(alloc, followers, &mut self.next, &mut self.stack)?),
            NodeKind::WindowInto { strategy } => {
                assign(strategy, self.next.element.time, &mut self.windows)?;
                Ok(forward_in_windows(
                    alloc,
                    followers,
                    &mut self.windows,
                    &mut self.next,
                    &mut self.stack,
                )?)
            }
            NodeKind::Group { .. } | NodeKind::Stateful { .. } | NodeKind::Write { .. } => {
                stage(&mut self.next, staging)?;
                Ok(false)
            }
        }
    }
}

// Stages what has come to a barrier.
fn stage(done: &mut Delivery, staging: &mut Staging) -> Result<(), NoMemory>
    ensures staged { OnOk result (staging.new.arrivals
        ≡ staging.old.arrivals ++ record { node = done.old.node; element = done.old.element } ∷ []) }
    ensures err { OnErr result (staging.new ≡ staging.old) }
    ensures only { staging.new ≡ record staging.old { arrivals = staging.new.arrivals } }
{
    staging.add(done.node, take_element(done))
}

// Calls the function of a node.
fn call_function<F: Shelf>(
    node: u32,
    work: FnKind,
    args: &Args,
    shelf: &mut F,
    element: &Element,
    out: &mut List<Element>,
) -> Result<(), ExecRefusal>
    requires { is_function_allowed work args.now ≡ true }
    ensures outputs { OnOk result (AddsOutputs work args.now element.now out.old out.new) }
    ensures refused { IfErr result
        (IsPassRefused (observed_shelf F.strict F.faults shelf.old shelf.new) node
        (ParDo work args.now) element.now) }
    ensures counts { F.faults shelf.old ≤ F.faults shelf.new }
    ensures strict { F.strict shelf.new ≡ F.strict shelf.old }
    ensures unharmed { F.strict shelf.old ≡ true → emits work args.now element.now ≢ None
        → F.faults shelf.new ≡ F.faults shelf.old }
{
    match shelf.call_fn(work, args, element, out) {
        Ok(()) => Ok(()),
        Err(CallRefusal::Failed) => Err(ExecRefusal::Faulted {
            at: node,
            cause: Cause::Call,
        }),
        Err(CallRefusal::NoMemory) => Err(ExecRefusal::NoMemory),
    }
}
