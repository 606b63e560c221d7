//! The file of a plan document, opened and read by a store whose calls may fail.

ghost use Rattle.std.specs.Prelude.{◌≡◌, ◌≤◌, ◌<◌, true, Ok, length, IfOk, IfErr};
ghost use Rattle.beam_ports.specs.Counts.{rise};
ghost use Rattle.beam_ports.specs.Files.{KeepsOpenings};
ghost use Rattle.beam_ports.specs.Observed.{observed_store, WhereTold};
ghost use Rattle.command_ends.specs.PlanFiles.{AreNamesOf, IsMeaningOf, IsPlanRefused};
ghost use Rattle.command_ends.specs.Retrying.{RoseBy, TriesStore};

use crate::retrying::RetryingStore;
use crate::status::{Status, no_source};
use crate::whole_file::read_text;
use beam_ports::{OpenRefusal, Store};
use beam_values::{Bytes, List};
use pipeline_graph::Graph;
use plan_reader::{NamedPlan, PlanReadRefusal, length_refusal, read_named_plan};
use std::alloc::Global;

/// A checked pipeline with the names of its nodes, each by its number, and how often the store failed while
/// its document was read.
#[derive(Debug, Drop)]
pub struct PlanRead {
    pub names: List<Bytes>,
    pub graph: Graph,
    pub failed: u32,
}

/// Opens the file of a plan document and reads it whole, unless it is too long for one. A call that fails
/// is made again until `attempts` calls have failed.
pub fn read_plan_file<S: Store>(
    alloc: Global,
    store: &mut S,
    name: &[u8],
    attempts: u32,
) -> Result<PlanRead, Status>
    requires { 1 ≤ attempts }
    ensures plan { IfOk result (λ read. WhereTold (S.files store.old)
        (λ told. IsMeaningOf told name.now (Ok read.graph))) }
    ensures names { IfOk result
        (λ read. WhereTold (S.files store.old) (λ told. AreNamesOf told name.now read.names)) }
    ensures each { IfOk result (λ read. length read.names ≡ length read.graph.nodes) }
    ensures failed { IfOk result
        (λ read. read.failed ≤ rise (S.faults store.old) (S.faults store.new)) }
    ensures few { IfOk result (λ read. read.failed < attempts) }
    ensures refused { IfErr result
        (IsPlanRefused (observed_store S.files S.faults store.old store.new) name.now attempts) }
    ensures told { S.files store.new ≡ S.files store.old }
    ensures kept { KeepsOpenings (S.opened store.old) (S.opened store.new) }
    ensures counts { S.faults store.old ≤ S.faults store.new }
    ensures exact { IfOk result (λ read. S.counts_exactly ≡ true
        → RoseBy (S.faults store.old) (S.faults store.new) read.failed) }
    ensures tries { IfErr result (TriesStore S.Store attempts 0 store.old store.new) }
{
    let mut store = RetryingStore::new(store, 0, attempts);
    let file = match store.open_file(name) {
        Ok(file) => file,
        Err(OpenRefusal::Absent) => return Err(no_source(alloc, name)),
        Err(OpenRefusal::Failed) => return Err(Status::SourceFault(0)),
    };
    if let Some(refusal) = length_refusal(file.len) {
        return Err(Status::BadPlan(refusal));
    }
    let text = match read_text(alloc, &mut store, &file) {
        Ok(text) => text,
        Err(status) => return Err(status),
    };
    match read_named_plan(alloc, text.as_slice()) {
        Ok(NamedPlan { names, graph }) => Ok(PlanRead {
            names,
            graph,
            failed: store.failed(),
        }),
        Err(PlanReadRefusal::Bad(refusal)) => Err(Status::BadPlan(refusal)),
        Err(PlanReadRefusal::NoMemory) => Err(Status::NoMemory),
    }
}
