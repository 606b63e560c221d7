ghost use Rattle.std.specs.Prelude.{◌≡◌, ◌≤◌, IfOk};
ghost use Rattle.std.specs.Ordering.{nat_cmp};
ghost use Rattle.std.specs.Cmp.Lexicographic.{slice_cmp};
ghost use Rattle.beam_values.specs.Spelling.{spelling};
ghost use Rattle.beam_coders.specs.Answers.{IsBad};
ghost use Rattle.beam_coders.specs.Readable.{nesting, depth_limit};

use crate::{ReadRefusal, read_value, write_value};
use beam_values::{Bytes, NoMemory, Value, cmp_values};
use std::alloc::Global;
use std::cmp::Ordering;

/// What [`write_value`] appends for two values, and what [`cmp_values`] answers: it is the order of
/// the bytes.
pub fn write_and_compare(
    alloc: Global,
    a: &Value,
    b: &Value,
) -> Result<(Bytes, Bytes, Ordering), NoMemory>
    ensures first { IfOk result (λ x. x.0 ≡ spelling a.now) }
    ensures second { IfOk result (λ x. x.1 ≡ spelling b.now) }
    ensures order { IfOk result (λ x. x.2 ≡ slice_cmp nat_cmp x.0 x.1) }
{
    let mut first = Bytes::new(alloc);
    write_value(a, &mut first)?;
    let mut second = Bytes::new(alloc);
    write_value(b, &mut second)?;
    Ok((first, second, cmp_values(a, b)))
}

/// Writes a value and reads it again, whatever follows it: where its nesting is at most 256, it is the
/// same value.
pub fn write_and_read(alloc: Global, value: &Value, after: &[u8]) -> Result<Value, ReadRefusal>
    ensures same { nesting value.now ≤ depth_limit → IfOk result (λ again. again ≡ value.now) }
    ensures never_bad { nesting value.now ≤ depth_limit → IsBad result → ⊥ }
{
    let mut out = Bytes::new(alloc);
    write_value(value, &mut out)?;
    out.extend_from_slice(after)?;
    let (again, _) = read_value(alloc, out.as_slice())?;
    Ok(again)
}
