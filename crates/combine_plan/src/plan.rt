ghost use Rattle.std.specs.Prelude.{◌≡◌, ◌<◌, ℕ, true, length, IfErr, IfOk, IfSome};
ghost use Rattle.std.specs.Prelude.{List as ListOf, Option as OptionOf};
ghost use Rattle.std.specs.List.{list_all, position};
ghost use Rattle.beam_ports.specs.Files.{Opening};
ghost use Rattle.beam_values.specs.Nodes.{is_group_kind};
ghost use Rattle.beam_values.specs.declared.file_text.FileText.{FileText};
ghost use Rattle.beam_values.specs.declared.plan.NodeKind.TheVariants.{ParDo};
ghost use Rattle.beam_values.specs.declared.value.Value.{Value as ValueOf};
ghost use Rattle.book_core.specs.Runs.{AreOptions};
ghost use Rattle.bundle_work.specs.Kits.{EachBecomes, observed_shelves, observed_stores};
ghost use Rattle.bundle_work.specs.Openings.{AreOpened, file_names};
ghost use Rattle.bundle_work.specs.Outside.{IsKitKept};
ghost use Rattle.bundle_work.specs.Reading.{opened_lengths};
ghost use Rattle.combine_lift.specs.Lifting.{IsLiftable};
ghost use Rattle.combine_laws.specs.Combined.{takes_of};
ghost use Rattle.combine_plan.specs.Combined.{AreOpenedAlike, IsCombineEnd, IsLiftedEnd, known_of};
ghost use Rattle.combine_plan.specs.Lifting.{AreAllFolded, AreAllRefused, AreLengths, IsLiftedAt};

use crate::crew::fold_hands;
use crate::last::write_combined;
use crate::pieces::{cut_items, deal};
use crate::refusal::CombineRefusal;
use beam_ports::{Opened, Store};
use beam_values::{Arrival, FileLen, FnKind, List, NoMemory, Node, NodeKind, Options};
use bundle_work::{Kit, lengths_of, readers_of};
use combine_lift::{Combiner, CountOf, LiftRefusal, MaxOf, Partials, SumOf, shape_refusal};
use dofn_traits::Shelf;
use pipeline_graph::Graph;
use pipeline_graph::laws::{
    nodes_have_inputs_and_settings_of_their_kind, plans_are_small_and_write_something,
};
use split_core::laws::the_order_of_items_and_ranges_is_no_matter;
use std::alloc::Global;
use std::thread::Threads;

/// Runs a checked plan whose Group and function are combined: what arrives at its Writes. The kits' files are
/// those of the plan.
pub fn combine_plan<R: Threads + Sync, F: Shelf, S: Store>(
    rt: &R,
    alloc: Global,
    graph: &Graph,
    options: &Options,
    kits: &mut [Kit<F, S>],
) -> Result<List<Arrival>, CombineRefusal>
    requires some { 0 < length kits.old }
    requires allowed { AreOptions options.now }
    requires opened { AreOpenedAlike S.files S.opened graph.now kits.old }
    ensures ended { IsCombineEnd (known_of
        (observed_shelves F.strict F.faults kits.old kits.new)
        (observed_stores S.files S.faults kits.old kits.new))
        (observed_shelves F.strict F.faults kits.old kits.new)
        (observed_stores S.files S.faults kits.old kits.new)
        graph.now options.now.attempts result }
    ensures kept { EachBecomes kits.old kits.new (λ old new. (new.files ≡ old.files)
        × IsKitKept F.faults F.strict S.faults S.files
        S.opened old.shelf new.shelf old.store new.store) }
{
    match shape_refusal(alloc, graph)? {
        None => combine_lifted(rt, alloc, graph, options, kits),
        Some(_broken) => Err(CombineRefusal::Lift(LiftRefusal::Shape)),
    }
}

/// The same of a plan that is lifted.
fn combine_lifted<R: Threads + Sync, F: Shelf, S: Store>(
    rt: &R,
    alloc: Global,
    graph: &Graph,
    options: &Options,
    kits: &mut [Kit<F, S>],
) -> Result<List<Arrival>, CombineRefusal>
    requires some { 0 < length kits.old }
    requires allowed { AreOptions options.now }
    requires opened { AreOpenedAlike S.files S.opened graph.now kits.old }
    requires liftable { IsLiftable graph.now }
    ensures ended { IsLiftedEnd (known_of
        (observed_shelves F.strict F.faults kits.old kits.new)
        (observed_stores S.files S.faults kits.old kits.new))
        (observed_shelves F.strict F.faults kits.old kits.new)
        (observed_stores S.files S.faults kits.old kits.new)
        graph.now options.now.attempts result }
    ensures kept { EachBecomes kits.old kits.new (λ old new. (new.files ≡ old.files)
        × IsKitKept F.faults F.strict S.faults S.files
        S.opened old.shelf new.shelf old.store new.store) }
{
    let lifted = lifted_function(graph);
    let function = lifted.function;
    match lifted.work {
        FnKind::SumSeq => combine_with(rt, alloc, graph, options, kits, function, SumOf::new()),
        FnKind::CountSeq => combine_with(rt, alloc, graph, options, kits, function, CountOf::new()),
        FnKind::MaxSeq => combine_with(rt, alloc, graph, options, kits, function, MaxOf::new()),
        _ => unreachable!(),
    }
}

/// The function of a lifted plan.
#[derive(Clone, Copy)]
struct Lifted {
    /// The number of its node.
    function: u32,
    work: FnKind,
}

/// The function that takes the Group.
fn lifted_function(graph: &Graph) -> Lifted
    requires { IsLiftable graph.now }
    ensures { IsLiftedAt graph.now result.function result.work }
{
    let nodes = graph.plan().nodes.as_slice();
    let Some(group) = first_group(nodes) else {
        unreachable!()
    };
    let [function] = graph.followers(group as u32) else {
        unreachable!()
    };
    let function = *function;
    let NodeKind::ParDo { work, .. } = nodes[function as usize].kind else {
        unreachable!()
    };
    Lifted { function, work }
}

fn first_group(nodes: &[Node]) -> Option<usize>
    ensures group { result ≡ position (λ node. is_group_kind node.kind) nodes.now }
    ensures within { IfSome result (λ group. group < length nodes.now) }
{
    nodes
        .iter()
        .position(|node| matches!(node.kind, NodeKind::Group { .. }))
}

/// Folds all that comes to the Group with a combiner of its function, and works what was combined.
fn combine_with<R: Threads + Sync, C: Combiner + Copy + Send + Sync, F: Shelf, S: Store>(
    rt: &R,
    alloc: Global,
    graph: &Graph,
    options: &Options,
    kits: &mut [Kit<F, S>],
    function: u32,
    combiner: C,
) -> Result<List<Arrival>, CombineRefusal>
where
    C::Acc: Send,
    requires some { 0 < length kits.old }
    requires allowed { AreOptions options.now }
    requires opened { AreOpenedAlike S.files S.opened graph.now kits.old }
    requires lifted { IsLiftedAt graph.now function C.work }
    requires takes { (part : ValueOf) → C.takes part ≡ takes_of C.work part }
    requires taken { (acc : C.Acc) (parts : ListOf ValueOf)
        → C.stands acc parts → list_all C.takes parts ≡ true }
    ensures ended { IsLiftedEnd (known_of
        (observed_shelves F.strict F.faults kits.old kits.new)
        (observed_stores S.files S.faults kits.old kits.new))
        (observed_shelves F.strict F.faults kits.old kits.new)
        (observed_stores S.files S.faults kits.old kits.new)
        graph.now options.now.attempts result }
    ensures kept { EachBecomes kits.old kits.new (λ old new. (new.files ≡ old.files)
        × IsKitKept F.faults F.strict S.faults S.files
        S.opened old.shelf new.shelf old.store new.store) }
{
    let partials = fold_items(rt, alloc, graph, options, kits, combiner)?;
    let rows = partials.into_rows(alloc)?;
    let shelf = &mut kits[0].shelf;
    let rows = rows.as_slice();
    write_combined(alloc, graph, function, options.attempts, shelf, rows)
}

/// Folds what all positions of all items bring.
fn fold_items<R: Threads + Sync, C: Combiner + Copy + Send + Sync, F: Shelf, S: Store>(
    rt: &R,
    alloc: Global,
    graph: &Graph,
    options: &Options,
    kits: &mut [Kit<F, S>],
    combiner: C,
) -> Result<Partials<C>, CombineRefusal>
where
    C::Acc: Send,
    requires some { 0 < length kits.old }
    requires allowed { AreOptions options.now }
    requires opened { AreOpenedAlike S.files S.opened graph.now kits.old }
    ensures folded { IfOk result (AreAllFolded C.stands
        (observed_shelves F.strict F.faults kits.old kits.new)
        (observed_stores S.files S.faults kits.old kits.new) graph.now) }
    ensures refused { IfErr result (AreAllRefused C.takes
        (observed_shelves F.strict F.faults kits.old kits.new)
        (observed_stores S.files S.faults kits.old kits.new)
        graph.now options.now.attempts) }
    ensures kept { EachBecomes kits.old kits.new (λ old new. (new.files ≡ old.files)
        × IsKitKept F.faults F.strict S.faults S.files
        S.opened old.shelf new.shelf old.store new.store) }
{
    the_order_of_items_and_ranges_is_no_matter();
    let items = lengths(alloc, graph, kits[0].files.as_slice())?;
    let pieces = cut_items(alloc, items.as_slice(), options.chunk)?;
    let hands = deal(alloc, pieces.as_slice(), kits.len())?;
    fold_hands(rt, alloc, graph, options, kits, hands, combiner)
}

/// The length of each item, where these files are opened.
fn lengths(alloc: Global, graph: &Graph, files: &[Opened]) -> Result<List<FileLen>, NoMemory>
    ensures exact { IfOk result (λ lengths. lengths ≡ opened_lengths graph.now files.now) }
    ensures items { IfOk result (λ lengths. (told : OptionOf (ListOf FileText))
        (opened : ℕ → OptionOf Opening) → AreOpened told opened (file_names graph.now) files.now
        → AreLengths told graph.now lengths) }
{
    plans_are_small_and_write_something();
    nodes_have_inputs_and_settings_of_their_kind();
    let readers = readers_of(alloc, graph.plan().nodes.as_slice(), files)?;
    lengths_of(alloc, readers.as_slice())
}
