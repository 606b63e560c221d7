ghost use Rattle.std.specs.Prelude.{◌≡◌, ◌≢◌, ◌++◌, ◌≤◌, ℕ, List as ListOf, Ok, IfOk, length, take};
ghost use Rattle.std.specs.Prelude.{drop};
ghost use Rattle.beam_values.specs.declared.value.Value.{Value};
ghost use Rattle.beam_values.specs.Spelling.{spelling};
ghost use Rattle.beam_coders.specs.Answers.{Gives, GivesFront, IsBad};
ghost use Rattle.beam_coders.specs.Readable.{IsReadable, depth_limit};
ghost use Rattle.beam_coders.specs.Reading.{blob_at, items_at, tagged_at, value_at};

use crate::bits::signed_bits;
use crate::varint::varint_of;
use crate::{CoderRefusal, ReadRefusal};
use beam_values::{Boxed, Bytes, List, Value};
use std::alloc::Global;

/// How many values may stand inside one another.
pub const DEPTH_LIMIT: u32 = 256;

#[tactic(auto, unfolding(crate::specs::Reading::blob_at))]
fn blob_of(alloc: Global, bytes: &[u8]) -> Result<(Bytes, &[u8]), ReadRefusal>
    ensures { Gives (λ x. (x.0, x.1.now)) result (blob_at bytes.now) }
{
    let (len, rest) = varint_of(64, bytes)?;
    if (rest.len() as u64) < len {
        return Err(ReadRefusal::Bad(CoderRefusal::Short));
    }
    let (blob, rest) = rest.split_at(len as usize);
    Ok((Bytes::from_slice(alloc, blob)?, rest))
}

/// The value whose spelling stands at the front of the bytes, and the length of that spelling.
pub fn read_value(alloc: Global, bytes: &[u8]) -> Result<(Value, usize), ReadRefusal>
    // What is read is spelled so.
    ensures found { IfOk result
        (λ x. IsReadable x.0 × (x.1 ≤ length bytes.now) × (spelling x.0 ≡ take x.1 bytes.now)) }
    // What is spelled so is read, whatever follows it, unless there is no memory.
    ensures only { (v : Value) (rest : ListOf ℕ) → IsReadable v
        → bytes.now ≡ spelling v ++ rest → GivesFront bytes.now result (Ok (v, rest)) }
    // So `Bad` comes only where no spelling stands at the front.
    ensures bad { IsBad result → (v : Value) (rest : ListOf ℕ)
        → IsReadable v → bytes.now ≢ spelling v ++ rest }
    // Which refusal it is: the first rule that fails from the left.
    ensures exact { GivesFront bytes.now result (value_at depth_limit bytes.now) }
{
    let (value, rest) = value_of(alloc, DEPTH_LIMIT, bytes)?;
    Ok((value, bytes.len() - rest.len()))
}

/// The value at the front, of a nesting of at most `depth`, and the bytes after it.
#[cycle(reads)]
pub fn value_of(alloc: Global, depth: u32, bytes: &[u8]) -> Result<(Value, &[u8]), ReadRefusal>
    ensures { Gives (λ x. (x.0, x.1.now)) result (value_at depth bytes.now) }
{
    if depth == 0 {
        return Err(ReadRefusal::Bad(CoderRefusal::Deep));
    }
    let Some((tag, rest)) = bytes.split_first() else {
        return Err(ReadRefusal::Bad(CoderRefusal::Short));
    };
    tagged_of(alloc, depth - 1, *tag, rest)
}

/// The value that a tag begins, with values of a nesting of at most `depth` inside.
#[cycle(reads)]
#[tactic(auto, unfolding(crate::specs::Reading::tagged_at))]
fn tagged_of(
    alloc: Global,
    depth: u32,
    tag: u8,
    bytes: &[u8],
) -> Result<(Value, &[u8]), ReadRefusal>
    ensures { Gives (λ x. (x.0, x.1.now)) result (tagged_at (value_at depth) tag bytes.now) }
{
    match tag {
        0 => Ok((Value::Null, bytes)),
        1 => {
            let (bits, rest) = varint_of(64, bytes)?;
            Ok((Value::Int(signed_bits(bits)), rest))
        }
        2 => {
            let (blob, rest) = blob_of(alloc, bytes)?;
            Ok((Value::Blob(blob), rest))
        }
        3 => {
            let (key, rest) = value_of(alloc, depth, bytes)?;
            let (value, rest) = value_of(alloc, depth, rest)?;
            let pair = Value::Pair(Boxed::new(alloc, key)?, Boxed::new(alloc, value)?);
            Ok((pair, rest))
        }
        4 => {
            let (count, rest) = varint_of(64, bytes)?;
            let (items, rest) = items_of(alloc, depth, count, rest)?;
            Ok((Value::Seq(items), rest))
        }
        _ => Err(ReadRefusal::Bad(CoderRefusal::Tag(tag))),
    }
}

#[cycle(reads)]
fn items_of(
    alloc: Global,
    depth: u32,
    count: u64,
    bytes: &[u8],
) -> Result<(List<Value>, &[u8]), ReadRefusal>
    ensures { Gives (λ x. (x.0, x.1.now)) result (items_at (value_at depth) count bytes.now) }
{
    let mut items = List::new(alloc);
    let mut rest = bytes;
    for _ in 0..count {
        let (item, after) = value_of(alloc, depth, rest)?;
        items.push(item)?;
        rest = after;
    }
    Ok((items, rest))
}
