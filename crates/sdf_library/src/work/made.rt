ghost use Rattle.std.specs.Prelude.{◌≡◌, ◌∷◌, ◌++◌, codes, decimal, IfOk};
ghost use Rattle.beam_values.specs.declared.plan.SourceKind.TheVariants as kinds;

use crate::PositionWork;
use crate::arguments::second_argument;
use crate::emissions::{push_timed, time_at};
use beam_values::{Args, Bytes, NoMemory, SourceKind, Value};
use dofn_traits::{CallRefusal, Emission, Found};
use itoa::Buffer;
use std::alloc::Global;

/// Made-up timed lines.
#[derive(Drop)]
pub struct Made;

impl PositionWork for Made {
    ghost work = { kinds.Made };

    fn kind() -> SourceKind {
        SourceKind::Made
    }

    // The line is put together without its time, which is known, so that nothing is read again.
    fn tell(
        alloc: Global,
        args: &Args,
        _bytes: &[u8],
        _base: u64,
        _len: u64,
        p: u64,
        out: &mut Emission,
    ) -> Result<Found, CallRefusal> {
        let number = second_argument(args);
        let time = time_at(100 * p + 37 * (p + number) % 100);
        let text = made_text(alloc, (7 * p + number) % 16, (p + number) % 1000)?;
        push_timed(Value::Blob(text), time, out)?;
        Ok(Found::Here(p + 1))
    }
}

// A key and a number as the fields of a made-up line; so few bytes take no memory.
fn made_text(alloc: Global, key: u64, number: u64) -> Result<Bytes, NoMemory>
    ensures { IfOk result (λ text. text ≡ codes "k" ++ (decimal key ++ 9 ∷ decimal number)) }
{
    let mut digits = Buffer::new();
    let mut text = Bytes::new(alloc);
    text.push(b'k')?;
    text.extend_from_slice(digits.format(key).as_bytes())?;
    text.push(b'\t')?;
    text.extend_from_slice(digits.format(number).as_bytes())?;
    Ok(text)
}
