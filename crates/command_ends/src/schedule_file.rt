//! The file of a schedule, opened and read by a store whose calls may fail.

ghost use Rattle.std.specs.Prelude.{◌≡◌, ◌≤◌, ◌<◌, ◌+◌, ◌-◌, true, Some, length, IfOk, IfErr};
ghost use Rattle.beam_values.specs.Files.{first_named};
ghost use Rattle.beam_ports.specs.Counts.{rise};
ghost use Rattle.beam_ports.specs.Files.{KeepsOpenings};
ghost use Rattle.beam_ports.specs.Observed.{observed_store, WhereTold};
ghost use Rattle.command_ends.specs.Retrying.{RoseBy, TriesStore};
ghost use Rattle.command_ends.specs.ScheduleFiles.{IsScheduleUnread, longest_schedule};

use crate::retrying::RetryingStore;
use crate::status::{Status, no_source};
use crate::whole_file::read_text;
use beam_ports::{OpenRefusal, Store};
use beam_text::ScheduleRefusal;
use std::alloc::Global;

/// The greatest length of a schedule, in bytes.
const LONGEST: u64 = 1_048_576;

/// The bytes of a file, and how often the store had failed in the command when they were read.
#[derive(Debug, Drop)]
pub struct TextRead {
    pub bytes: Vec<u8>,
    pub failed: u32,
}

/// Opens the file of a schedule and reads it whole, unless it is too long for one. The store has failed `failed` times
/// before in this command; a call that fails is made again until it has failed `attempts` times.
pub fn read_schedule_file<S: Store>(
    alloc: Global,
    store: &mut S,
    name: &[u8],
    failed: u32,
    attempts: u32,
) -> Result<TextRead, Status>
    ensures text { IfOk result (λ read. WhereTold (S.files store.old)
        (λ told. first_named name.now told ≡ Some read.bytes.items)) }
    ensures short { IfOk result (λ read. length read.bytes.items ≤ longest_schedule) }
    ensures failed { IfOk result
        (λ read. read.failed ≤ failed + rise (S.faults store.old) (S.faults store.new)) }
    ensures before { IfOk result (λ read. failed ≤ read.failed) }
    ensures few { IfOk result (λ read. read.failed < attempts) }
    ensures refused { IfErr result (IsScheduleUnread
        (observed_store S.files S.faults store.old store.new) name.now failed attempts) }
    ensures told { S.files store.new ≡ S.files store.old }
    ensures kept { KeepsOpenings (S.opened store.old) (S.opened store.new) }
    ensures counts { S.faults store.old ≤ S.faults store.new }
    ensures exact { IfOk result (λ read. S.counts_exactly ≡ true
        → RoseBy (S.faults store.old) (S.faults store.new) (read.failed - failed)) }
    ensures tries { IfErr result (TriesStore S.Store (attempts - failed) 0 store.old store.new) }
{
    let mut store = RetryingStore::new(store, failed, attempts);
    if !store.is_patient() {
        return Err(Status::SourceFault(0));
    }
    let file = match store.open_file(name) {
        Ok(file) => file,
        Err(OpenRefusal::Absent) => return Err(no_source(alloc, name)),
        Err(OpenRefusal::Failed) => return Err(Status::SourceFault(0)),
    };
    if file.len > LONGEST {
        return Err(Status::BadSchedule(ScheduleRefusal::Length(file.len)));
    }
    match read_text(alloc, &mut store, &file) {
        Ok(bytes) => Ok(TextRead {
            bytes,
            failed: store.failed(),
        }),
        Err(status) => Err(status),
    }
}
