ghost use Rattle.std.specs.Prelude.{◌≡◌, ◌++◌, OnOk};
ghost use Rattle.std.specs.List.{flat_map};
ghost use Rattle.beam_model.specs.Rendering.{dead_line};

use crate::element::push_field;
use beam_values::{Dead, List, NoMemory};
use itoa::Buffer;

/// Appends the positions that were set aside, in their order.
pub(crate) fn push_dead(dead: &[Dead], out: &mut List<u8>) -> Result<(), NoMemory>
    ensures { OnOk result (out.new ≡ out.old ++ flat_map dead_line dead.now) }
{
    for position in dead {
        push_dead_line(position, out)?;
    }
    Ok(())
}

fn push_dead_line(dead: &Dead, out: &mut List<u8>) -> Result<(), NoMemory>
    ensures { OnOk result (out.new ≡ out.old ++ dead_line dead.now) }
{
    let mut digits = Buffer::new();
    push_field(b"dead", out)?;
    push_field(digits.format(dead.node).as_bytes(), out)?;
    push_field(digits.format(dead.item).as_bytes(), out)?;
    push_field(digits.format(dead.at).as_bytes(), out)?;
    out.extend_from_slice(digits.format(dead.note.at).as_bytes())?;
    out.push(b'\n')
}
