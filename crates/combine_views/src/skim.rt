//! Lines of a file, added from what a pager holds.

ghost use Rattle.std.specs.Prelude.{◌≡◌, ◌+◌, ◌-◌, ◌<◌, ◌≤◌, IfOk, IfSome, IsNone, OnSome};
ghost use Rattle.std.specs.Prelude.{false, length, true, Option as OptionOf};
ghost use Rattle.beam_ports.specs.Files.{KeepsOpenings, Opening};
ghost use Rattle.beam_values.specs.Checked.{reads_file};
ghost use Rattle.beam_values.specs.Lines.{next_start};
ghost use Rattle.chain_exec.specs.Sources.{IsPagerOf};
ghost use Rattle.sdf_library.specs.Paging.{Serves, ShowsText, is_line_cut};
ghost use Rattle.combine_views.specs.Lines.{HasAdded, outputs_seen};
ghost use Rattle.combine_views.specs.Skims.{IsSkim};
ghost use Rattle.combine_views.specs.Steps.{IsStep};

use crate::add_line;
use beam_lines::{first_line, starts_line};
use beam_ports::Store;
use beam_values::{NoMemory, SourceKind};
use combine_lift::{Combiner, Partials};
use pipeline_graph::Graph;
use sdf_library::{PageRefusal, Pager};
use std::alloc::Global;

/// How lines were added from an offset on.
#[derive(Clone, Copy, Debug, PartialEq, Eq)]
pub enum Skim {
    /// Up to this offset: all of them, or those before a line of which views don't tell all.
    To(u64),
    /// Up to this offset, where a read failed; the store counted it.
    FailedAt(u64),
}

/// What came of one line.
#[derive(Clone, Copy)]
enum Step {
    /// It was added. The offset to go on from.
    Added(u64),
    /// Views don't tell what it brings.
    Untold,
    /// It couldn't be read.
    Failed,
}

/// Adds what positions of a file bring to the Group, from `from` on up to `to`, as far as views tell it. The
/// pager is that of the file.
pub fn skim_lines<C: Combiner, S: Store>(
    alloc: Global,
    graph: &Graph,
    source: u32,
    work: SourceKind,
    store: &mut S,
    pager: &mut Pager,
    from: u64,
    to: u64,
    partials: &mut Partials<C>,
) -> Result<Skim, NoMemory>
    requires source { source < length graph.now.nodes }
    requires work { reads_file work ≡ true }
    requires inside { to ≤ pager.old.len }
    requires ordered { from ≤ to }
    requires held { IsPagerOf (S.opened store.old pager.old.file) pager.old }
    ensures skimmed { IfOk result (IsSkim C.stands graph.now source work
        (S.opened store.old pager.old.file) pager.old.len from to
        (S.faults store.old) (S.faults store.new) partials.old partials.new) }
    // After every answer:
    ensures held { IsPagerOf (S.opened store.new pager.new.file) pager.new }
    ensures file { pager.new.file ≡ pager.old.file }
    ensures len { pager.new.len ≡ pager.old.len }
    ensures told { S.files store.new ≡ S.files store.old }
    ensures kept { KeepsOpenings (S.opened store.old) (S.opened store.new) }
    ensures counts { S.faults store.old ≤ S.faults store.new }
{
    let mut at = from;
    'lines: while at < to {
        match skim_line(alloc, graph, source, work, store, pager, at, partials)? {
            Step::Added(next) => at = next.min(to),
            Step::Untold => return Ok(Skim::To(at)),
            Step::Failed => return Ok(Skim::FailedAt(at)),
        }
    }
    Ok(Skim::To(at))
}

/// Adds what the position `p` brings.
fn skim_line<C: Combiner, S: Store>(
    alloc: Global,
    graph: &Graph,
    source: u32,
    work: SourceKind,
    store: &mut S,
    pager: &mut Pager,
    p: u64,
    partials: &mut Partials<C>,
) -> Result<Step, NoMemory>
    requires source { source < length graph.now.nodes }
    requires work { reads_file work ≡ true }
    requires inside { p < pager.old.len }
    requires held { IsPagerOf (S.opened store.old pager.old.file) pager.old }
    ensures step { IfOk result (IsStep C.stands graph.now source work
        (S.opened store.old pager.old.file) pager.old.len p
        (S.faults store.old) (S.faults store.new) partials.old partials.new) }
    // After every answer:
    ensures held { IsPagerOf (S.opened store.new pager.new.file) pager.new }
    ensures file { pager.new.file ≡ pager.old.file }
    ensures len { pager.new.len ≡ pager.old.len }
    ensures told { S.files store.new ≡ S.files store.old }
    ensures kept { KeepsOpenings (S.opened store.old) (S.opened store.new) }
    ensures counts { S.faults store.old ≤ S.faults store.new }
{
    if let Some(next) = pager.next_line(p) {
        pager.leave_line();
        return Ok(Step::Added(next));
    }
    match pager.hold_line(store, p) {
        Ok(()) => add_noted(alloc, graph, source, work, pager, p, partials),
        Err(PageRefusal::Failed) => Ok(Step::Failed),
        Err(PageRefusal::NoMemory) => Err(NoMemory),
    }
}

/// Adds what the position `p` brings, where the line there is held, and notes where that ends.
fn add_noted<C: Combiner>(
    alloc: Global,
    graph: &Graph,
    source: u32,
    work: SourceKind,
    pager: &mut Pager,
    p: u64,
    partials: &mut Partials<C>,
) -> Result<Step, NoMemory>
    requires source { source < length graph.now.nodes }
    requires work { reads_file work ≡ true }
    requires serves { Serves pager.old p }
    requires whole { is_line_cut p pager.old ≡ false }
    ensures step { (opening : OptionOf Opening) → ShowsText opening pager.old
        → IfOk result (IsStep C.stands graph.now source work opening pager.old.len p 1 1
        partials.old partials.new) }
    ensures held { (opening : OptionOf Opening) → ShowsText opening pager.old
        → IsPagerOf opening pager.old → IsPagerOf opening pager.new }
    ensures file { pager.new.file ≡ pager.old.file }
    ensures len { pager.new.len ≡ pager.old.len }
{
    match add_held(alloc, graph, source, work, pager, p, partials)? {
        Some(next) => {
            pager.note_line(p, next);
            Ok(Step::Added(next))
        }
        None => Ok(Step::Untold),
    }
}

/// Adds what the position `p` brings, and answers the one after it; none where views don't tell what it
/// brings.
fn add_held<C: Combiner>(
    alloc: Global,
    graph: &Graph,
    source: u32,
    work: SourceKind,
    pager: &Pager,
    p: u64,
    partials: &mut Partials<C>,
) -> Result<Option<u64>, NoMemory>
    requires source { source < length graph.now.nodes }
    requires work { reads_file work ≡ true }
    requires serves { Serves pager.now p }
    requires whole { is_line_cut p pager.now ≡ false }
    ensures added { IfOk result (λ next. OnSome next (HasAdded C.stands
        (outputs_seen graph.now source work pager.now.bytes pager.now.base p)
        partials.old partials.new)) }
    ensures untold { IfOk result (λ next. IsNone next → partials.new ≡ partials.old) }
    ensures next { IfOk result (λ next. IfSome next (λ next.
        next ≡ pager.now.base + next_start pager.now.bytes (p - pager.now.base))) }
    ensures within { IfOk result (λ next. IfSome next (λ next.
        (p < next) × (next ≤ pager.now.len))) }
{
    let look = pager.bytes();
    let at = (p - look.base) as usize;
    let line = first_line(look.bytes.split_at(at).1);
    if starts_line(look.bytes, at) && !add_line(alloc, graph, source, work, line.text, partials)? {
        return Ok(None);
    }
    Ok(Some(p + line.next as u64))
}
