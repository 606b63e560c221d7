ghost use Rattle.std.specs.Prelude.{◌≡◌, IfOk, OnOk};
ghost use Rattle.book_core.specs.BookForms.{book_form};
ghost use Rattle.snapshot_store.specs.Answers.{Gives, Reads};
ghost use Rattle.snapshot_store.specs.Snapshots.{snap, after_magic, value_meaning, snap_meaning};

use crate::SnapReadRefusal;
use beam_coders::read_value;
use beam_values::{Bytes, NoMemory, Value};
use book_core::BookData;
use snapshot_refusal::SnapRefusal;
use std::alloc::Global;
use value_forms::Stored;

const MAGIC: [u8; 4] = [0x42, 0x53, 0x4e, 0x31];

/// The bytes of a snapshot of the book.
pub fn write_snapshot(alloc: Global, stored: &BookData) -> Result<Bytes, NoMemory>
    ensures bytes { IfOk result (λ bytes. bytes ≡ snap stored.now) }
    ensures fits { OnOk result (book_form.Fits stored.now) }
{
    let mut out = Bytes::from_slice(alloc, &MAGIC)?;
    stored.write(&mut out)?;
    Ok(out)
}

/// The book whose snapshot the bytes are, or why they are none. They are read once, from the left. What of
/// the book lies in long byte strings and in pairs is shared with the value that was read.
pub fn read_snapshot(alloc: Global, bytes: &[u8]) -> Result<BookData, SnapReadRefusal>
    ensures { Gives result (snap_meaning bytes.now) }
{
    let spelled = spelled_of(bytes)?;
    let value = value_of(alloc, spelled)?;
    Ok(BookData::read(alloc, &value)?)
}

/// What follows the bytes that every snapshot begins with.
#[tactic(auto, unfolding(crate::specs::Snapshots::after_magic))]
fn spelled_of(bytes: &[u8]) -> Result<&[u8], SnapRefusal>
    ensures { Reads (λ spelled. spelled.now) result (after_magic bytes.now) }
{
    match bytes.strip_prefix(&MAGIC) {
        Some(spelled) => Ok(spelled),
        None => Err(SnapRefusal::Magic),
    }
}

/// The value that the bytes spell, with none left over.
#[tactic(auto, unfolding(crate::specs::Snapshots::value_meaning))]
fn value_of(alloc: Global, bytes: &[u8]) -> Result<Value, SnapReadRefusal>
    ensures { Gives result (value_meaning bytes.now) }
{
    let (value, len) = read_value(alloc, bytes)?;
    match &bytes[len..] {
        [] => Ok(value),
        _ => Err(SnapReadRefusal::Bad(SnapRefusal::Rest)),
    }
}
