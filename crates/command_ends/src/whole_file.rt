//! An opened file that is read whole, by a store whose calls may fail.

ghost use Rattle.std.specs.Prelude.{◌≡◌, length, IsSomeAnd, IfOk, IfErr, OnOk, OnErr};
ghost use Rattle.command_ends.specs.Retrying.{GivesUpExactly, IsGivenUp, IsPatient, KeepsTrying};
ghost use Rattle.command_ends.specs.Retrying.{store_in};
ghost use Rattle.command_ends.specs.WholeFiles.{IsReadRefused, IsTextOf};

use crate::retrying::RetryingStore;
use crate::status::Status;
use beam_ports::{Failed, Opened, Store};
use std::alloc::Global;

/// Reads an opened file whole.
pub fn read_text<S: Store>(
    alloc: Global,
    store: &mut RetryingStore<'_, S>,
    file: &Opened,
) -> Result<Vec<u8>, Status>
    requires open { IsSomeAnd (S.opened (store_in store.old) file.now.file)
        (λ opening. opening.len ≡ file.now.len) }
    requires patience { IsPatient store.old }
    ensures text { IfOk result (λ bytes.
        IsTextOf (S.opened (store_in store.old) file.now.file) file.now.len bytes.items) }
    ensures few { OnOk result (IsPatient store.new) }
    ensures refused { IfErr result IsReadRefused }
    ensures exactly { IfErr result (GivesUpExactly store.new) }
    ensures tried { KeepsTrying S.Store store.old store.new }
{
    let Ok(mut bytes) = vec![in alloc; 0u8; file.len as usize] else {
        return Err(Status::NoMemory);
    };
    match fill(store, file, bytes.as_mut_slice()) {
        Ok(()) => Ok(bytes),
        Err(Failed) => Err(Status::SourceFault(0)),
    }
}

// Fills the buffer, which is as long as the file.
fn fill<S: Store>(
    store: &mut RetryingStore<'_, S>,
    file: &Opened,
    buffer: &mut [u8],
) -> Result<(), Failed>
    requires open { IsSomeAnd (S.opened (store_in store.old) file.now.file)
        (λ opening. opening.len ≡ file.now.len) }
    requires fits { length buffer.old ≡ file.now.len }
    requires patience { IsPatient store.old }
    ensures bytes { OnOk result
        (IsTextOf (S.opened (store_in store.old) file.now.file) file.now.len buffer.new) }
    ensures few { OnOk result (IsPatient store.new) }
    ensures given_up { OnErr result (IsGivenUp store.new) }
    ensures tried { KeepsTrying S.Store store.old store.new }
{
    let mut done = 0;
    while done < buffer.len() {
        match store.read_at(file.file, done as u64, buffer.split_at_mut(done).1) {
            Ok(count) => done += count,
            Err(Failed) => return Err(Failed),
        }
    }
    Ok(())
}
