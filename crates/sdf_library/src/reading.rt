ghost use Rattle.std.specs.Prelude.{◌≡◌, ◌+◌, ◌≤◌, ℕ, List, Some, length, take, drop, min, OnOk, OnErr};
ghost use Rattle.std.specs.Prelude.{IfOk, IsSomeAnd};
ghost use Rattle.beam_ports.specs.Counts.{Rose};
ghost use Rattle.beam_ports.specs.Files.{KeepsOpenings};
ghost use Rattle.sdf_library.specs.Paging.{block};

use beam_ports::{Failed, Store};

/// How many bytes a block has.
pub(crate) const BLOCK: u64 = 65536;

/// Fills the buffer with the bytes of an opened file from `at` on, block by block. One failed read ends it.
pub(crate) fn fill<S: Store>(
    store: &mut S,
    file: u32,
    len: u64,
    at: u64,
    buffer: &mut [u8],
) -> Result<(), Failed>
    requires open { IsSomeAnd (S.opened store.old file) (λ opening. opening.len ≡ len) }
    requires fits { at + length buffer.old ≤ len }
    ensures bytes { OnOk result ((text : List ℕ) → S.opened store.old file
        ≡ Some (record { len = len; text = Some text })
        → buffer.new ≡ take (length buffer.old) (drop at text)) }
    ensures failed { OnErr result (Rose (S.faults store.old) (S.faults store.new)) }
    ensures told { S.files store.new ≡ S.files store.old }
    ensures kept { KeepsOpenings (S.opened store.old) (S.opened store.new) }
    ensures counts { S.faults store.old ≤ S.faults store.new }
{
    let mut done = 0;
    while done < buffer.len() {
        let rest = buffer.split_at_mut(done).1;
        done += fill_front(store, file, len, at + done as u64, rest)?;
    }
    Ok(())
}

// Fills the front of the buffer with a block, or all of a smaller one, and answers how many bytes that is.
fn fill_front<S: Store>(
    store: &mut S,
    file: u32,
    len: u64,
    at: u64,
    buffer: &mut [u8],
) -> Result<usize, Failed>
    requires open { IsSomeAnd (S.opened store.old file) (λ opening. opening.len ≡ len) }
    requires fits { at + length buffer.old ≤ len }
    ensures size { IfOk result (λ size. size ≡ min (length buffer.old) block) }
    ensures bytes { IfOk result (λ size. (text : List ℕ) → S.opened store.old file
        ≡ Some (record { len = len; text = Some text })
        → take size buffer.new ≡ take size (drop at text)) }
    ensures failed { OnErr result (Rose (S.faults store.old) (S.faults store.new)) }
    ensures told { S.files store.new ≡ S.files store.old }
    ensures kept { KeepsOpenings (S.opened store.old) (S.opened store.new) }
    ensures counts { S.faults store.old ≤ S.faults store.new }
{
    let size = buffer.len().min(BLOCK as usize);
    fill_block(store, file, len, at, buffer.split_at_mut(size).0)?;
    Ok(size)
}

// Fills a buffer of at most a block. Each turn takes a byte at least, so there are at most as many as bytes.
fn fill_block<S: Store>(
    store: &mut S,
    file: u32,
    len: u64,
    at: u64,
    buffer: &mut [u8],
) -> Result<(), Failed>
    requires open { IsSomeAnd (S.opened store.old file) (λ opening. opening.len ≡ len) }
    requires fits { at + length buffer.old ≤ len }
    requires size { length buffer.old ≤ block }
    ensures bytes { OnOk result ((text : List ℕ) → S.opened store.old file
        ≡ Some (record { len = len; text = Some text })
        → buffer.new ≡ take (length buffer.old) (drop at text)) }
    ensures failed { OnErr result (Rose (S.faults store.old) (S.faults store.new)) }
    ensures told { S.files store.new ≡ S.files store.old }
    ensures kept { KeepsOpenings (S.opened store.old) (S.opened store.new) }
    ensures counts { S.faults store.old ≤ S.faults store.new }
{
    let mut done = 0;
    while done < buffer.len() {
        done += store.read_at(file, at + done as u64, buffer.split_at_mut(done).1)?;
    }
    Ok(())
}
