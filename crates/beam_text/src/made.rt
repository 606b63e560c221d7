ghost use Rattle.std.specs.Prelude.{◌≡◌, ◌++◌, ◌∷◌, ◌≤◌, [], IfOk, OnOk};
ghost use Rattle.beam_values.specs.Lines.{spread};
ghost use Rattle.beam_model.specs.Positions.{made_line};

use crate::element::push_field;
use beam_values::{Bytes, List, NoMemory};
use itoa::Buffer;
use std::alloc::Global;

/// About how long a made line is, in bytes, with some to spare.
const USUAL_LINE_LEN: u64 = 24;

/// The text of more lines than these fits no memory.
const MOST_LINES: u64 = 1 << 56;

/// The lines of the positions below a count that a source of made lines has after this number: a time that
/// rises from line to line, a key and a number below 1000, with TABs between.
pub fn made_text(alloc: Global, count: u64, number: u64) -> Result<Bytes, NoMemory>
    ensures { IfOk result
        (λ text. text ≡ spread (λ i. made_line number i ++ 10 ∷ []) 0 count) }
{
    if count > MOST_LINES {
        return Err(NoMemory);
    }
    let mut out = List::new(alloc);
    let _ = out.reserve((count * USUAL_LINE_LEN) as usize);
    for i in 0..count {
        push_made_line(i, number, &mut out)?;
    }
    Bytes::from_list(alloc, out)
}

#[tactic(auto, using(crate::proofs::MadeLines::made_line_again))]
fn push_made_line(i: u64, number: u64, out: &mut List<u8>) -> Result<(), NoMemory>
    requires { i ≤ MOST_LINES }
    ensures { OnOk result (out.new ≡ out.old ++ (made_line number i ++ 10 ∷ [])) }
{
    // The remainders stay the same, and no sum leaves 64 bits.
    let number = number % 2000;
    let mut digits = Buffer::new();
    push_field(
        digits.format(100 * i + 37 * (i + number) % 100).as_bytes(),
        out,
    )?;
    out.push(b'k')?;
    push_field(digits.format((7 * i + number) % 16).as_bytes(), out)?;
    out.extend_from_slice(digits.format((i + number) % 1000).as_bytes())?;
    out.push(b'\n')
}
