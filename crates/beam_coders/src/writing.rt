ghost use Rattle.std.specs.Prelude.{◌≡◌, ◌++◌, ◌∷◌, OnOk, OnErr, length};
ghost use Rattle.std.specs.List.{flat_map, AllByRecursion};
ghost use Rattle.std.specs.Int.{w64};
ghost use Rattle.std.specs.Int.RustNames.{FitsSigned};
ghost use Rattle.beam_values.specs.Spelling.{varint, two's_complement, blob_spelling, spelling};
ghost use Rattle.beam_values.specs.Storable.{IsStorable};
ghost use Rattle.beam_coders.specs.Kept.{Keeps};

use crate::varint::append_varint;
use beam_values::{Bytes, NoMemory, Value, unsigned_bits};

/// Appends the spelling of an `Int`. Where memory fails a part of it may stand at the end.
pub fn append_int(number: i64, out: &mut Bytes) -> Result<(), NoMemory>
    ensures ok { OnOk result (out.new ≡ out.old ++ 1 ∷ varint (two's_complement number)) }
    ensures words { FitsSigned w64 number }
    ensures kept { Keeps out.old out.new }
{
    out.push(1)?;
    append_varint(unsigned_bits(number), out)
}

/// Appends the spelling of a `Blob`. Where memory fails a part of it may stand at the end.
pub fn append_blob(bytes: &[u8], out: &mut Bytes) -> Result<(), NoMemory>
    ensures ok { OnOk result (out.new ≡ out.old ++ blob_spelling bytes.now) }
    ensures kept { Keeps out.old out.new }
{
    out.push(2)?;
    append_varint(bytes.len() as u64, out)?;
    out.extend_from_slice(bytes)?;
    Ok(())
}

/// Appends the tag of a sequence and the count of its items. Where memory fails a part of it may stand at the end.
pub fn append_count(count: u64, out: &mut Bytes) -> Result<(), NoMemory>
    ensures ok { OnOk result (out.new ≡ out.old ++ 4 ∷ varint count) }
    ensures kept { Keeps out.old out.new }
{
    out.push(4)?;
    append_varint(count, out)
}

/// Appends the spelling of a value. Where memory fails a part of it may stand at the end.
#[cycle(appends)]
pub fn append_value(value: &Value, out: &mut Bytes) -> Result<(), NoMemory>
    ensures ok { OnOk result (out.new ≡ out.old ++ spelling value.now) }
    ensures words { OnOk result (IsStorable value.now) }
    ensures kept { Keeps out.old out.new }
{
    match value {
        Value::Null => {
            out.push(0)?;
            Ok(())
        }
        Value::Int(number) => append_int(*number, out),
        Value::Blob(bytes) => append_blob(bytes.as_slice(), out),
        Value::Pair(key, value) => {
            out.push(3)?;
            append_value(key.get(), out)?;
            append_value(value.get(), out)
        }
        Value::Seq(items) => append_seq(items.as_slice(), out),
    }
}

#[cycle(appends)]
#[tactic(auto, using(crate::proofs::Written::seq_written, crate::proofs::Keeping::keeps_on))]
fn append_seq(items: &[Value], out: &mut Bytes) -> Result<(), NoMemory>
    ensures ok { OnOk result (out.new ≡ out.old ++ spelling (Value.Seq items.now)) }
    ensures words { OnOk result (AllByRecursion IsStorable items.now) }
    ensures kept { Keeps out.old out.new }
{
    append_count(items.len() as u64, out)?;
    append_items(items, out)?;
    Ok(())
}

#[cycle(appends)]
fn append_items(items: &[Value], out: &mut Bytes) -> Result<(), NoMemory>
    ensures ok { OnOk result (out.new ≡ out.old ++ flat_map spelling items.now) }
    ensures words { OnOk result (AllByRecursion IsStorable items.now) }
    ensures kept { Keeps out.old out.new }
{
    for item in items {
        append_value(item, out)?;
    }
    Ok(())
}

/// Appends the spelling of a value, which is read again where its nesting is at most 256.
pub fn write_value(value: &Value, out: &mut Bytes) -> Result<(), NoMemory>
    ensures ok { OnOk result (out.new ≡ out.old ++ spelling value.now) }
    ensures words { OnOk result (IsStorable value.now) }
    ensures err { OnErr result (out.new ≡ out.old) }
{
    let before = out.len();
    let written = append_value(value, out);
    if written.is_err() {
        out.truncate(before);
    }
    written
}
