ghost use Rattle.std.specs.Prelude.{IfOk};
ghost use Rattle.beam_model.specs.Rendering.{IsRendering};

use crate::dead::push_dead;
use crate::logs::push_logs;
use crate::writes::push_writes;
use beam_values::{Bytes, List, NoMemory, Outcome};
use std::alloc::Global;

/// About how long a line is, in bytes, with some to spare: room that isn't written is mostly free, where a
/// text that grows may be moved. Where it is refused, and for longer lines, the text grows while it is written.
const USUAL_LINE_LEN: usize = 128;

/// The text of an outcome: for each Write in number order the lines of its elements, in ascending
/// order and below a line with its label where there are several, then the calls of the stateful nodes
/// that are to be printed (Beam Programming Guide, State and Timers), and then the positions that were
/// set aside.
pub fn render(alloc: Global, outcome: &Outcome) -> Result<Bytes, NoMemory>
    ensures { IfOk result (IsRendering outcome.now) }
{
    let written = outcome.written.as_slice();
    let mut out = List::new(alloc);
    let _ = out.reserve(written.len().saturating_mul(USUAL_LINE_LEN));
    push_writes(alloc, &outcome.plan, written, &mut out)?;
    push_logs(alloc, &outcome.plan, outcome.logs.as_slice(), &mut out)?;
    push_dead(outcome.dead.as_slice(), &mut out)?;
    Bytes::from_list(alloc, out)
}
