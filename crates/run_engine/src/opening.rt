ghost use Rattle.std.specs.Prelude.{◌≡◌, ◌<◌, ◌≤◌, ◌-◌, ◌++◌, ℕ, List as ListOf, [], length};
ghost use Rattle.std.specs.Prelude.{OnOk, IfOk, IfErr, IsErr};
ghost use Rattle.std.specs.List.{AllByRecursion, flat_map};
ghost use Rattle.beam_ports.specs.Observed.{observed_store};
ghost use Rattle.bundle_work.specs.Kits.{EachBecomes};
ghost use Rattle.bundle_work.specs.Openings.{AreOpened, IsOpenedAs, file_names, names_in};
ghost use Rattle.bundle_work.specs.Outside.{IsStoreKept};
ghost use Rattle.command_ends.specs.Retrying.{GivesUpExactly, IsPatient, KeepsTrying, store_in};
ghost use Rattle.command_ends.specs.Retrying.{TriesStore};
ghost use Rattle.run_engine.specs.Kits.{OpensKit, observed_each};
ghost use Rattle.run_engine.specs.Openings.{AgreeInLength, AreNamesRefused};
ghost use Rattle.run_engine.specs.Openings.{AreOpenedByAll, HasSameLength, IsFaultCounted, IsFileRefused};
ghost use Rattle.run_engine.specs.Openings.{IsNameRefused, IsOpeningRefused, IsOtherRefused};
ghost use Rattle.run_engine.specs.Openings.{TriesKits, TriesOthers};

use beam_ports::{OpenRefusal, Opened, Store};
use beam_values::{Bytes, List, Node, Options};
use bundle_work::{Kit, names_in};
use command_ends::{RetryingStore, Status, no_source};
use dofn_traits::Shelf;
use pipeline_graph::Graph;
use std::alloc::Global;

/// Opens every file of the plan with each kit, one kit after another, in node and item order. A call that
/// fails is tried again until that kit's store has failed `attempts` times, at the first kit with `failed`
/// failures before this call. Each file must have the length that the first kit has met. After a refusal no
/// kit has files.
pub fn open_sources<F: Shelf, S: Store>(
    alloc: Global,
    graph: &Graph,
    options: &Options,
    kits: &mut [Kit<F, S>],
    failed: u32,
) -> Result<(), Status>
    requires attempts { 1 ≤ options.now.attempts }
    requires workers { length kits.old ≤ options.now.workers }
    ensures opened { OnOk result (AreOpenedByAll S.files S.opened graph.now kits.new) }
    ensures few { OnOk result (0 < length kits.old → failed < options.now.attempts) }
    ensures refused { IfErr result (IsOpeningRefused
        (observed_each S.files S.faults kits.old kits.new) graph.now options.now.attempts failed) }
    ensures fewer { OnOk result
        (TriesKits S.Store options.now.attempts failed kits.old kits.new Status.Ok) }
    ensures tries { IfErr result
        (TriesKits S.Store options.now.attempts failed kits.old kits.new) }
    ensures none { IsErr result → AllByRecursion (λ kit. kit.files ≡ []) kits.new }
    ensures kept { EachBecomes kits.old kits.new (OpensKit S.Store) }
{
    prove!(kits.len() <= options.workers as usize);
    match open_each(alloc, graph, options.attempts, kits, failed) {
        Ok(()) => Ok(()),
        Err(refusal) => {
            close_files(alloc, kits);
            Err(refusal)
        }
    }
}

// No kit has files any more.
fn close_files<F: Shelf, S: Store>(alloc: Global, kits: &mut [Kit<F, S>])
    ensures { EachBecomes kits.old kits.new (λ old new. new ≡ record old { files = [] }) }
{
    for kit in kits.iter_mut() {
        kit.files = List::new(alloc);
    }
}

// Opens the files with the first kit, and then with the others.
fn open_each<F: Shelf, S: Store>(
    alloc: Global,
    graph: &Graph,
    attempts: u32,
    kits: &mut [Kit<F, S>],
    failed: u32,
) -> Result<(), Status>
    requires attempts { 1 ≤ attempts }
    requires few { length kits.old ≤ 4294967295 }
    ensures opened { OnOk result (AreOpenedByAll S.files S.opened graph.now kits.new) }
    ensures few { OnOk result (0 < length kits.old → failed < attempts) }
    ensures refused { IfErr result (IsOpeningRefused
        (observed_each S.files S.faults kits.old kits.new) graph.now attempts failed) }
    ensures fewer { OnOk result (TriesKits S.Store attempts failed kits.old kits.new Status.Ok) }
    ensures tries { IfErr result (TriesKits S.Store attempts failed kits.old kits.new) }
    ensures kept { EachBecomes kits.old kits.new (OpensKit S.Store) }
{
    let Some((first, others)) = kits.split_first_mut() else {
        return Ok(());
    };
    match open_kit(alloc, graph, attempts, first, 0, failed, &[]) {
        Ok(()) => open_others(alloc, graph, attempts, others, first.files.as_slice()),
        Err(refusal) => Err(refusal),
    }
}

// Opens the files with the kits after the first one, which has opened `first`.
fn open_others<F: Shelf, S: Store>(
    alloc: Global,
    graph: &Graph,
    attempts: u32,
    kits: &mut [Kit<F, S>],
    first: &[Opened],
) -> Result<(), Status>
    requires attempts { 1 ≤ attempts }
    requires few { length kits.old < 4294967295 }
    ensures opened { OnOk result (AllByRecursion (λ kit. AreOpened (S.files kit.store)
        (S.opened kit.store) (file_names graph.now) kit.files) kits.new) }
    ensures lengths { OnOk result
        (AllByRecursion (λ kit. AgreeInLength first.now kit.files) kits.new) }
    ensures refused { IfErr result
        (IsOtherRefused (observed_each S.files S.faults kits.old kits.new) first.now
        (file_names graph.now) attempts) }
    ensures fewer { OnOk result (TriesOthers S.Store attempts kits.old kits.new Status.Ok) }
    ensures tries { IfErr result (TriesOthers S.Store attempts kits.old kits.new) }
    ensures kept { EachBecomes kits.old kits.new (OpensKit S.Store) }
{
    for at in 0..kits.len() {
        let number = at as u32 + 1;
        match open_kit(alloc, graph, attempts, &mut kits[at], number, 0, first) {
            Ok(()) => {}
            Err(refusal) => return Err(refusal),
        }
    }
    Ok(())
}

// Opens the files with the kit of this number, where the first kit has opened `first`.
fn open_kit<F: Shelf, S: Store>(
    alloc: Global,
    graph: &Graph,
    attempts: u32,
    kit: &mut Kit<F, S>,
    number: u32,
    failed: u32,
    first: &[Opened],
) -> Result<(), Status>
    requires attempts { 1 ≤ attempts }
    ensures opened { OnOk result (AreOpened (S.files kit.new.store)
        (S.opened kit.new.store) (file_names graph.now) kit.new.files) }
    ensures lengths { OnOk result (AgreeInLength first.now kit.new.files) }
    ensures few { OnOk result (failed < attempts) }
    ensures refused { IfErr result (AreNamesRefused (S.files kit.old.store) first.now
        (file_names graph.now) number) }
    ensures counted { IfErr result (IsFaultCounted
        (observed_store S.files S.faults kit.old.store kit.new.store) attempts failed) }
    ensures fewer { OnOk result (TriesStore S.Store (attempts - failed) number
        kit.old.store kit.new.store Status.Ok) }
    ensures tries { IfErr result (TriesStore S.Store (attempts - failed) number
        kit.old.store kit.new.store) }
    ensures shelf { kit.new.shelf ≡ kit.old.shelf }
    ensures kept { IsStoreKept S.faults S.files S.opened kit.old.store kit.new.store }
{
    let nodes = graph.plan().nodes.as_slice();
    let mut store = RetryingStore::new(&mut kit.store, failed, attempts);
    if !store.is_patient() {
        return Err(Status::SourceFault(number));
    }
    match open_nodes(alloc, nodes, &mut store, number, first) {
        Ok(files) => {
            kit.files = files;
            Ok(())
        }
        Err(refusal) => Err(refusal),
    }
}

fn open_nodes<S: Store>(
    alloc: Global,
    nodes: &[Node],
    store: &mut RetryingStore<'_, S>,
    number: u32,
    first: &[Opened],
) -> Result<List<Opened>, Status>
    requires { IsPatient store.old }
    ensures opened { IfOk result (AreOpened (S.files (store_in store.new))
        (S.opened (store_in store.new)) (flat_map (λ node. names_in node.kind) nodes.now)) }
    ensures lengths { IfOk result (AgreeInLength first.now) }
    ensures few { OnOk result (IsPatient store.new) }
    ensures refused { IfErr result (AreNamesRefused (S.files (store_in store.old)) first.now
        (flat_map (λ node. names_in node.kind) nodes.now) number) }
    ensures exactly { IfErr result (GivesUpExactly store.new) }
    ensures tried { KeepsTrying S.Store store.old store.new }
{
    let mut files = List::new(alloc);
    for node in nodes {
        let names = names_in(&node.kind);
        match open_names(alloc, names, store, number, first, &mut files) {
            Ok(()) => {}
            Err(refusal) => return Err(refusal),
        }
    }
    Ok(files)
}

// Opens the files of one node, behind those that are opened.
fn open_names<S: Store>(
    alloc: Global,
    names: &[Bytes],
    store: &mut RetryingStore<'_, S>,
    number: u32,
    first: &[Opened],
    files: &mut List<Opened>,
) -> Result<(), Status>
    requires { IsPatient store.old }
    ensures opened { OnOk result ((before : ListOf (ListOf ℕ))
        → AreOpened (S.files (store_in store.old)) (S.opened (store_in store.old)) before files.old
        → AreOpened (S.files (store_in store.new)) (S.opened (store_in store.new))
        (before ++ names.now) files.new) }
    ensures lengths { OnOk result
        (AgreeInLength first.now files.old → AgreeInLength first.now files.new) }
    ensures few { OnOk result (IsPatient store.new) }
    ensures refused { IfErr result (λ status. (before after : ListOf (ListOf ℕ))
        → AreOpened (S.files (store_in store.old)) (S.opened (store_in store.old)) before files.old
        → AreNamesRefused (S.files (store_in store.old)) first.now
        (before ++ (names.now ++ after)) number status) }
    ensures exactly { IfErr result (GivesUpExactly store.new) }
    ensures tried { KeepsTrying S.Store store.old store.new }
{
    for name in names {
        let name = name.as_slice();
        match open_named(alloc, name, store, number) {
            Ok(file) => {
                match compare(alloc, first, files.len(), name, file.len) {
                    Ok(()) => {}
                    Err(refusal) => return Err(refusal),
                }
                files.push(file)?;
            }
            Err(refusal) => return Err(refusal),
        }
    }
    Ok(())
}

// Compares the length of a file with the one that the first kit has met at this place, if it has.
fn compare(alloc: Global, first: &[Opened], at: usize, name: &[u8], len: u64) -> Result<(), Status>
    ensures same { OnOk result (HasSameLength first.now at len) }
    ensures refused { IfErr result (IsFileRefused first.now at name.now len) }
{
    match first.get(at) {
        Some(file) if file.len != len => Err(Status::FileChanged {
            name: Bytes::from_slice(alloc, name)?,
            first: file.len,
            other: len,
        }),
        _ => Ok(()),
    }
}

fn open_named<S: Store>(
    alloc: Global,
    name: &[u8],
    store: &mut RetryingStore<'_, S>,
    number: u32,
) -> Result<Opened, Status>
    requires { IsPatient store.old }
    ensures opened { IfOk result (IsOpenedAs (S.files (store_in store.new))
        (S.opened (store_in store.new)) name.now) }
    ensures few { OnOk result (IsPatient store.new) }
    ensures refused { IfErr result
        (IsNameRefused (S.files (store_in store.old)) name.now number) }
    ensures exactly { IfErr result (GivesUpExactly store.new) }
    ensures tried { KeepsTrying S.Store store.old store.new }
{
    match store.open_file(name) {
        Ok(file) => Ok(file),
        Err(OpenRefusal::Absent) => Err(no_source(alloc, name)),
        Err(OpenRefusal::Failed) => Err(Status::SourceFault(number)),
    }
}
