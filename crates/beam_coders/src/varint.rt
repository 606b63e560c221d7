ghost use Rattle.std.specs.Prelude.{◌≡◌, ◌++◌, ◌<◌, ◌≤◌, ◌^◌, OnOk, IfOk, nat_lt};
ghost use Rattle.beam_values.specs.Spelling.{varint};
ghost use Rattle.beam_coders.specs.Kept.{Keeps};
ghost use Rattle.beam_coders.specs.Reading.{varint_at};
ghost use Rattle.beam_coders.specs.Answers.{Read};

use crate::CoderRefusal;
use beam_values::{Bytes, NoMemory};

/// Appends the varint of a number. Where memory fails a part of it may stand at the end.
pub fn append_varint(number: u64, out: &mut Bytes) -> Result<(), NoMemory>
    ensures ok { OnOk result (out.new ≡ out.old ++ varint number) }
    ensures kept { Keeps out.old out.new }
{
    let mut number = number;
    while number >= 128 {
        out.push((128 + number % 128) as u8)?;
        number /= 128;
    }
    out.push(number as u8)?;
    Ok(())
}

/// Whether a last group is below 2 ^ `bits`.
fn fits(group: u8, bits: u32) -> bool
    requires { group < 128 }
    ensures { result ≡ nat_lt group (2 ^ bits) }
{
    bits >= 7 || group < 1 << bits
}

/// The number below 2 ^ `bits` whose varint stands at the front, and the bytes after it.
pub fn varint_of(bits: u32, bytes: &[u8]) -> Result<(u64, &[u8]), CoderRefusal>
    requires { bits ≤ 64 }
    ensures small { IfOk result (λ x. x.0 < 2 ^ bits) }
    ensures exact { Read (λ x. (x.0, x.1.now)) result (varint_at bits bytes.now) }
{
    let Some((byte, rest)) = bytes.split_first() else {
        return Err(CoderRefusal::Short);
    };
    if *byte < 128 {
        if !fits(*byte, bits) {
            return Err(CoderRefusal::Overlong);
        }
        return Ok((*byte as u64, rest));
    }
    if bits <= 7 {
        return Err(CoderRefusal::Overlong);
    }
    let (above, rest) = varint_of(bits - 7, rest)?;
    match above {
        0 => Err(CoderRefusal::Overlong),
        _ => Ok(((*byte % 128) as u64 + 128 * above, rest)),
    }
}
