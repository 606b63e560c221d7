ghost use Rattle.std.specs.Prelude.{◌≡◌, ◌≢◌, ◌≤◌, ◌<◌, ℕ, List, [], None, Some, true, false, length};
ghost use Rattle.std.specs.Prelude.{IsOk, IsSome, IfErr, IfOk, IfSome, OnErr, OnOk};
ghost use Rattle.beam_values.specs.Checked.{is_source_argument, reads_file};
ghost use Rattle.beam_model.specs.Holds.{estimator_of};
ghost use Rattle.beam_model.specs.Positions as model;
ghost use Rattle.beam_ports.specs.Counts.{Rose};
ghost use Rattle.beam_ports.specs.Files.{KeepsOpenings};
ghost use Rattle.dofn_traits.specs.Calls.{IsFound};
ghost use Rattle.chain_exec.specs.Causes.{observed_shelf};
ghost use Rattle.chain_exec.specs.Positions.{IsEmissionAt, IsNextOf, IsReadRefused, IsSeenRefused};
ghost use Rattle.chain_exec.specs.Positions.{IsSourceRefused, emission_of};
ghost use Rattle.chain_exec.specs.Sources.{IsCounted, IsEnoughAt, IsHeldFor, IsLookAt, IsLookInto};
ghost use Rattle.chain_exec.specs.Sources.{IsLeanAt, IsLeanOrLess, IsText, KeepsBytes};
ghost use Rattle.chain_exec.specs.Sources.{is_look_cut_short, looked_at, skipped_to, source_at};

use crate::ExecRefusal;
use beam_ports::Store;
use beam_values::{Args, Cause, Estimator, NodeKind, SourceKind};
use dofn_traits::{CallRefusal, Emission, Found, Look, Shelf};
use pipeline_graph::Graph;
use sdf_library::{PageRefusal, Pager};

/// The settings of a source.
#[derive(Clone, Copy)]
pub struct Source<'a> {
    pub work: SourceKind,
    pub args: &'a Args,
    pub estimator: &'a Estimator,
}

/// The source of this number.
pub fn source_of(graph: &Graph, node: u32) -> Source<'_>
    requires { IsSome (source_at graph.now node) }
    ensures source { source_at graph.now node
        ≡ Some (record { work = result.work; args = result.args.now }) }
    ensures estimator { result.estimator.now ≡ estimator_of graph.now node }
    ensures known { node < length graph.now.nodes }
    ensures allowed { is_source_argument result.work result.args.now ≡ true }
{
    let Some(at) = graph.plan().nodes.get(node as usize) else {
        unreachable!()
    };
    let NodeKind::Source {
        work,
        args,
        estimator,
        ..
    } = &at.kind
    else {
        unreachable!()
    };
    Source {
        work: *work,
        args,
        estimator,
    }
}

/// Whether its items are files.
fn reads_file(work: SourceKind) -> bool
    ensures { result ≡ reads_file work }
{
    match work {
        SourceKind::Lines | SourceKind::TimedLines => true,
        SourceKind::Count | SourceKind::Made => false,
    }
}

/// Works a position of an item, and answers the next one. What it emits is put into `out`, which is
/// empty before.
pub fn work_source<F: Shelf, S: Store>(
    node: u32,
    work: SourceKind,
    args: &Args,
    shelf: &mut F,
    store: &mut S,
    pager: &mut Pager,
    p: u64,
    out: &mut Emission,
) -> Result<u64, ExecRefusal>
    requires allowed { is_source_argument work args.now ≡ true }
    requires empty { out.old ≡ record { items = []; declared = None } }
    requires inside { p < pager.old.len }
    requires counted { IsCounted (record { work = work; args = args.now }) pager.old }
    requires held { IsHeldFor work (S.opened store.old pager.old.file) pager.old }
    ensures next { IfOk result (IsNextOf p pager.old.len) }
    ensures told { IfOk result (IsEmissionAt (record { work = work; args = args.now })
        (S.opened store.old pager.old.file) pager.old.len p (emission_of out.new)) }
    ensures refused { IfErr result
        (IsSourceRefused (observed_shelf F.strict F.faults shelf.old shelf.new)
        (record { before = S.faults store.old; after = S.faults store.new }) node
        (record { work = work; args = args.now })
        (S.opened store.old pager.old.file) pager.old.len p) }
    ensures unharmed { F.strict shelf.old ≡ true → (text : List ℕ)
        → IsText work (S.opened store.old pager.old.file) pager.old.len text
        → model.emission work args.now text p ≢ model.Poison
        → F.faults shelf.new ≡ F.faults shelf.old }
    ensures counts { F.faults shelf.old ≤ F.faults shelf.new }
    ensures strict { F.strict shelf.new ≡ F.strict shelf.old }
    ensures enough { IsEnoughAt (record { work = work; args = args.now }) pager.old p
        → KeepsBytes pager.old pager.new × (store.new ≡ store.old) }
    ensures bounded { OnOk result
        (IsLeanAt (record { work = work; args = args.now }) pager.new p) }
    ensures given_up { OnErr result
        (IsLeanOrLess (record { work = work; args = args.now }) p pager.old pager.new) }
    // After every answer:
    ensures file { pager.new.file ≡ pager.old.file }
    ensures len { pager.new.len ≡ pager.old.len }
    ensures held { IsHeldFor work (S.opened store.new pager.new.file) pager.new }
    ensures files { S.files store.new ≡ S.files store.old }
    ensures kept { KeepsOpenings (S.opened store.old) (S.opened store.new) }
    ensures store_counts { S.faults store.old ≤ S.faults store.new }
{
    if let Some(next) = skipped_to(work, pager, p) {
        pager.leave_line();
        return Ok(next);
    }
    hold(node, work, args, store, pager, p)?;
    let next = call_source(node, work, args, shelf, pager, p, out)?;
    note(work, pager, p, next);
    Ok(next)
}

// The next line start of a file, where it is noted that no line starts at the position.
fn skipped_to(work: SourceKind, pager: &Pager, p: u64) -> Option<u64>
    ensures noted { result ≡ skipped_to work pager.now p }
    ensures next { IfSome result (IsNextOf p pager.now.len) }
{
    if reads_file(work) {
        pager.next_line(p)
    } else {
        None
    }
}

// Notes which line start of a file comes after the position.
fn note(work: SourceKind, pager: &mut Pager, p: u64, next: u64)
    requires { next ≤ pager.old.len }
    ensures file { reads_file work ≡ true
        → pager.new ≡ record pager.old { quiet = record { from = p; to = next } } }
    ensures other { reads_file work ≡ false → pager.new ≡ pager.old }
    ensures page { pager.new ≡ record pager.old { quiet = pager.new.quiet } }
{
    if reads_file(work) {
        pager.note_line(p, next);
    }
}

// Holds what a position of a file needs, and the line there up to its end. Of what is counted or made nothing is held.
fn hold<S: Store>(
    node: u32,
    work: SourceKind,
    args: &Args,
    store: &mut S,
    pager: &mut Pager,
    p: u64,
) -> Result<(), ExecRefusal>
    requires inside { p < pager.old.len }
    requires counted { IsCounted (record { work = work; args = args.now }) pager.old }
    requires held { IsHeldFor work (S.opened store.old pager.old.file) pager.old }
    ensures view { OnOk result (IsLookAt (record { work = work; args = args.now }) pager.new p) }
    ensures whole { OnOk result
        (is_look_cut_short (record { work = work; args = args.now }) pager.new p ≡ false) }
    ensures shown { OnOk result
        ((text : List ℕ) → IsText work (S.opened store.new pager.new.file) pager.new.len text
        → IsLookInto text (record { work = work; args = args.now }) pager.new) }
    ensures bounded { OnOk result
        (IsLeanAt (record { work = work; args = args.now }) pager.new p) }
    ensures enough { IsEnoughAt (record { work = work; args = args.now }) pager.old p
        → IsOk result × KeepsBytes pager.old pager.new × (store.new ≡ store.old) }
    ensures given_up { OnErr result (length pager.new.bytes ≤ length pager.old.bytes) }
    ensures refused { IfErr result (IsReadRefused
        (record { before = S.faults store.old; after = S.faults store.new }) node work) }
    // After every answer:
    ensures file { pager.new.file ≡ pager.old.file }
    ensures len { pager.new.len ≡ pager.old.len }
    ensures held { IsHeldFor work (S.opened store.new pager.new.file) pager.new }
    ensures files { S.files store.new ≡ S.files store.old }
    ensures kept { KeepsOpenings (S.opened store.old) (S.opened store.new) }
    ensures counts { S.faults store.old ≤ S.faults store.new }
{
    if !reads_file(work) {
        return Ok(());
    }
    match pager.hold_line(store, p) {
        Ok(()) => Ok(()),
        Err(PageRefusal::Failed) => Err(ExecRefusal::Faulted {
            at: node,
            cause: Cause::Read,
        }),
        Err(PageRefusal::NoMemory) => Err(ExecRefusal::NoMemory),
    }
}

// Calls the source on what is held, which has the line at the position up to its end. Answers the next position.
fn call_source<F: Shelf>(
    node: u32,
    work: SourceKind,
    args: &Args,
    shelf: &mut F,
    pager: &Pager,
    p: u64,
    out: &mut Emission,
) -> Result<u64, ExecRefusal>
    requires allowed { is_source_argument work args.now ≡ true }
    requires view { IsLookAt (record { work = work; args = args.now }) pager.now p }
    requires whole { is_look_cut_short (record { work = work; args = args.now }) pager.now p
        ≡ false }
    ensures found { IfOk result (λ next. (file : List ℕ)
        → IsLookInto file (record { work = work; args = args.now }) pager.now
        → IsFound work args.now file p out.old out.new (Found.Here next)) }
    ensures next { IfOk result (IsNextOf p pager.now.len) }
    ensures refused { IfErr result
        (IsSeenRefused (observed_shelf F.strict F.faults shelf.old shelf.new) node
        (record { work = work; args = args.now }) pager.now p) }
    ensures unharmed { F.strict shelf.old ≡ true → (file : List ℕ)
        → IsLookInto file (record { work = work; args = args.now }) pager.now
        → model.emission work args.now file p ≢ model.Poison
        → F.faults shelf.new ≡ F.faults shelf.old }
    ensures counts { F.faults shelf.old ≤ F.faults shelf.new }
    ensures strict { F.strict shelf.new ≡ F.strict shelf.old }
{
    let look = look_at(work, pager);
    match shelf.call_split(work, args, look.bytes, look.base, look.len, p, out) {
        Ok(Found::Here(next)) => Ok(next),
        Ok(Found::More) => unreachable!(),
        Err(CallRefusal::Failed) => Err(ExecRefusal::Faulted {
            at: node,
            cause: Cause::Call,
        }),
        Err(CallRefusal::NoMemory) => Err(ExecRefusal::NoMemory),
    }
}

// What is looked at of an item.
fn look_at(work: SourceKind, pager: &Pager) -> Look<'_>
    ensures bytes { result.bytes.now ≡ (looked_at work pager.now).bytes }
    ensures base { result.base ≡ (looked_at work pager.now).base }
    ensures len { result.len ≡ (looked_at work pager.now).len }
{
    let held = pager.bytes();
    if reads_file(work) {
        held
    } else {
        Look {
            bytes: &[],
            base: 0,
            len: held.len,
        }
    }
}
