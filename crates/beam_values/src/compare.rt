ghost use Rattle.std.specs.Prelude.{◌≡◌, ◌+◌, ◌%◌, if◌then◌else◌, nat_lt, length};
ghost use Rattle.std.specs.List.{flat_map};
ghost use Rattle.std.specs.Ordering.{nat_cmp};
ghost use Rattle.std.specs.Cmp.Lexicographic.{slice_cmp};
ghost use Rattle.beam_values.specs.Spelling.{varint, two's_complement, blob_spelling, spelling};
ghost use Rattle.beam_values.specs.Spelling.{tag};

use crate::{Value, unsigned_bits};
use std::cmp::Ordering;

/// The first byte of the varint of `number`.
fn first_group(number: u64) -> u8
    ensures { result ≡ (if nat_lt number 128 then number else 128 + number % 128) }
{
    if number < 128 {
        number as u8
    } else {
        (128 + number % 128) as u8
    }
}

/// The order of the varints of two numbers, which isn't the order of the numbers: the least group
/// comes first.
fn cmp_varints(a: u64, b: u64) -> Ordering
    ensures { result ≡ slice_cmp nat_cmp (varint a) (varint b) }
{
    let mut a = a;
    let mut b = b;
    while a >= 128 && b >= 128 && a % 128 == b % 128 {
        a /= 128;
        b /= 128;
    }
    first_group(a).cmp(&first_group(b))
}

/// The order of two whole numbers as values, by their spellings.
fn cmp_ints(a: i64, b: i64) -> Ordering
    ensures { result
        ≡ slice_cmp nat_cmp (varint (two's_complement a)) (varint (two's_complement b)) }
{
    cmp_varints(unsigned_bits(a), unsigned_bits(b))
}

/// The order of two strings of bytes as values, by their spellings: the length comes first, and its
/// varint decides where the lengths differ.
#[tactic(auto, using(crate::proofs::Varints::varints_tie, crate::proofs::Varints::varints_apart))]
pub fn cmp_blobs(a: &[u8], b: &[u8]) -> Ordering
    ensures { result ≡ slice_cmp nat_cmp (blob_spelling a.now) (blob_spelling b.now) }
{
    if a.len() == b.len() {
        a.cmp(&b)
    } else {
        cmp_varints(a.len() as u64, b.len() as u64)
    }
}

/// The first byte of the spelling of a value.
fn tag_of(value: &Value) -> u8
    ensures { result ≡ tag value.now }
{
    match value {
        Value::Null => 0,
        Value::Int(_) => 1,
        Value::Blob(_) => 2,
        Value::Pair(_, _) => 3,
        Value::Seq(_) => 4,
    }
}

/// The order of two values by their spellings, without writing them. It stops at the first
/// difference and takes no memory.
#[cycle(orders)]
pub fn cmp_values(a: &Value, b: &Value) -> Ordering
    // Only a value itself is spelled as it is.
    ensures same { result ≡ Ordering.Equal → a.now ≡ b.now }
    ensures order { result ≡ slice_cmp nat_cmp (spelling a.now) (spelling b.now) }
{
    match (a, b) {
        (Value::Int(a), Value::Int(b)) => cmp_ints(*a, *b),
        (Value::Blob(a), Value::Blob(b)) => cmp_blobs(a.as_slice(), b.as_slice()),
        (Value::Pair(key, value), Value::Pair(other_key, other_value)) => {
            match cmp_values(key.get(), other_key.get()) {
                Ordering::Equal => cmp_values(value.get(), other_value.get()),
                decided => decided,
            }
        }
        (Value::Seq(items), Value::Seq(others)) => {
            if items.len() == others.len() {
                cmp_items(items.as_slice(), others.as_slice())
            } else {
                cmp_varints(items.len() as u64, others.len() as u64)
            }
        }
        (a, b) => tag_of(a).cmp(&tag_of(b)),
    }
}

/// The order of the items of two sequences of one length.
#[cycle(orders)]
fn cmp_items(a: &[Value], b: &[Value]) -> Ordering
    requires { length a.now ≡ length b.now }
    ensures same { result ≡ Ordering.Equal → a.now ≡ b.now }
    ensures order { result ≡ slice_cmp nat_cmp (flat_map spelling a.now) (flat_map spelling b.now) }
{
    for (i, item) in a.iter().enumerate() {
        match cmp_values(item, &b[i]) {
            Ordering::Equal => {}
            decided => return decided,
        }
    }
    Ordering::Equal
}
