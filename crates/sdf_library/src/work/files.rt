ghost use Rattle.beam_values.specs.Functions as functions;
ghost use Rattle.beam_values.specs.declared.plan.SourceKind.TheVariants as kinds;
ghost use Rattle.beam_model.specs.Positions.{line_emission};
ghost use Rattle.sdf_library.specs.Sources.{Adds};

use crate::PositionWork;
use crate::emissions::push_timed;
use crate::lines::seen_line;
use beam_lines::{TimedLine, timed_line};
use beam_values::{Args, Bytes, SourceKind, Time, Value};
use dofn_traits::{CallRefusal, Emission, Found};
use std::alloc::Global;

/// Each line of a file, at the least time.
#[derive(Drop)]
pub struct Lines;

impl PositionWork for Lines {
    ghost work = { kinds.Lines };

    fn kind() -> SourceKind {
        SourceKind::Lines
    }

    fn tell(
        alloc: Global,
        _args: &Args,
        bytes: &[u8],
        base: u64,
        len: u64,
        p: u64,
        out: &mut Emission,
    ) -> Result<Found, CallRefusal> {
        let Some(line) = seen_line(bytes, base, len, p) else {
            return Ok(Found::More);
        };
        if line.starts {
            let text = Bytes::from_slice(alloc, line.text)?;
            push_timed(Value::Blob(text), Time::LEAST, out)?;
        }
        Ok(Found::Here(line.next))
    }
}

/// Each line of a file is a time and a text, or a watermark.
#[derive(Drop)]
pub struct TimedLines;

impl PositionWork for TimedLines {
    ghost work = { kinds.TimedLines };

    fn kind() -> SourceKind {
        SourceKind::TimedLines
    }

    fn tell(
        alloc: Global,
        _args: &Args,
        bytes: &[u8],
        base: u64,
        len: u64,
        p: u64,
        out: &mut Emission,
    ) -> Result<Found, CallRefusal> {
        let Some(line) = seen_line(bytes, base, len, p) else {
            return Ok(Found::More);
        };
        if line.starts {
            emit_line(alloc, line.text, out)?;
        }
        Ok(Found::Here(line.next))
    }
}

// Adds what a line of timed lines emits.
fn emit_line(alloc: Global, line: &[u8], out: &mut Emission) -> Result<(), CallRefusal>
    ensures { Adds (line_emission (functions.timed_line line.now)) out.old out.new result }
{
    match timed_line(line) {
        TimedLine::Timed(time, text) => {
            let text = Bytes::from_slice(alloc, text)?;
            push_timed(Value::Blob(text), time, out)?;
            Ok(())
        }
        TimedLine::Declared(mark) => {
            out.declared = Some(mark);
            Ok(())
        }
        TimedLine::Poison => Err(CallRefusal::Failed),
    }
}
