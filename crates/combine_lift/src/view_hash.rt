//! Hashes of keys and windows, by which rows are guessed. A value has the same hash however it is seen.

ghost use Rattle.std.specs.Prelude.{◌<◌};

use crate::View;
use beam_values::{Span, Value, unsigned_bits};

/// A hash of a key and the start of a window. It is never 0, which says of a slot that it has no guess.
/// Keys that are neither numbers nor bytes share one in each window.
pub fn hash_of(key: View<'_>, span: Span) -> u32
    ensures { 0 < result }
{
    let mixed = with_word(hash_of_key(key), unsigned_bits(span.start()));
    ((mixed / (1 << 32)) as u32).max(1)
}

fn hash_of_key(key: View<'_>) -> u64 {
    match key {
        View::Int(number) => hash_of_int(number),
        View::Text(text) => hash_of_text(text),
        View::Whole(Value::Int(number)) => hash_of_int(*number),
        View::Whole(Value::Blob(text)) => hash_of_text(text.as_slice()),
        View::Null | View::Whole(_) => 0,
    }
}

fn hash_of_int(number: i64) -> u64 {
    with_word(0, unsigned_bits(number))
}

/// Eight bytes at a time, and then one after the other.
fn hash_of_text(text: &[u8]) -> u64 {
    let mut hash = 0;
    let mut rest = text;
    while let Some((word, after)) = rest.split_first_chunk::<8>() {
        hash = with_word(hash, u64::from_le_bytes(*word));
        rest = after;
    }
    for byte in rest {
        hash = with_word(hash, u64::from(*byte));
    }
    hash
}

/// The multiplier is 2^64 over the golden ratio: the higher a bit, the more bits it depends on. So the
/// upper half is added to the lower one first, where it reaches all bits of what comes next.
fn with_word(hash: u64, word: u64) -> u64 {
    let spread = hash.wrapping_add(hash / (1 << 32));
    spread
        .wrapping_add(word)
        .wrapping_mul(0x9e37_79b9_7f4a_7c15)
}
