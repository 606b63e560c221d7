//! The line that a command writes to its notes where it doesn't end well.

ghost use Rattle.std.specs.Prelude.{◌≡◌, ◌++◌, ℕ, IfOk, OnOk, IfSome, IfNone, ◌⊎◌, decimal};
ghost use Rattle.beam_ports.specs.Observed.{observed_sink};
ghost use Rattle.command_ends.specs.Notes.{changed_text, note_line, work_text, place_text};
ghost use Rattle.command_ends.specs.Notes.{attempt_text, cause_text, lift_text, schedule_text};
ghost use Rattle.command_ends.specs.Notes.{IsLongNoted, IsNoted, IsNotedUpTo, StaysOrNoMemory};
ghost use Rattle.command_ends.specs.Retrying.{TriesOnce};

use crate::status::Status;
use crate::writing::put;
use beam_ports::Sink;
use beam_text::{ScheduleRefusal, push_blob};
use beam_values::{Bytes, Cause, FaultNote, List, NoMemory};
use combine_lift::LiftRefusal;
use itoa::Buffer;
use plan_reader::refusal_text;
use std::alloc::Global;

/// The line of a status whose line has no part of its own, so that it needs no memory.
pub fn fixed_line(status: &Status) -> Option<&'static [u8]>
    ensures some { IfSome result (λ line. line.now ≡ note_line status.now) }
    ensures none { IfNone result
        ((status.now ≡ Status.Ok) ⊎ ((status.now ≡ Status.Help) ⊎ IsLongNoted status.now)) }
{
    match status {
        Status::Usage => Some(b"usage: see beam_run help\n"),
        Status::SinkFault => Some(b"sink fault\n"),
        Status::NoMemory => Some(b"no memory\n"),
        _ => None,
    }
}

/// The line of a status for the notes.
pub fn note_line(alloc: Global, status: &Status) -> Result<Bytes, NoMemory>
    ensures { IfOk result (λ line. line ≡ note_line status.now) }
{
    let mut line = List::new(alloc);
    match status {
        Status::Ok => {}
        Status::Help => {}
        Status::Usage => line.extend_from_slice(b"usage: see beam_run help")?,
        Status::BadPlan(refusal) => {
            line.extend_from_slice(b"bad plan: ")?;
            line.extend_from_slice(refusal_text(alloc, refusal)?.as_slice())?;
        }
        Status::NoSource(name) => {
            line.extend_from_slice(b"no source: ")?;
            push_blob(name.as_slice(), &mut line)?;
        }
        Status::SourceFault(kit) => push_number(b"source fault: kit ", (*kit).into(), &mut line)?,
        Status::WorkFault(note) => push_work(note, &mut line)?,
        Status::SinkFault => line.extend_from_slice(b"sink fault")?,
        Status::NoMemory => line.extend_from_slice(b"no memory")?,
        Status::FileChanged { name, first, other } => {
            push_changed(name, *first, *other, &mut line)?
        }
        Status::BadSchedule(refusal) => push_schedule(*refusal, &mut line)?,
        Status::NotLifted(refusal) => line.extend_from_slice(lift_text(*refusal))?,
    }
    line.push(b'\n')?;
    Bytes::from_list(alloc, line)
}

/// Writes the note of an end. A fault of the notes ends the line and changes nothing else.
pub fn noted<N: Sink>(alloc: Global, status: Status, notes: &mut N) -> Status
    ensures stays { StaysOrNoMemory status result }
    ensures noted { IsNoted result (observed_sink N.faults N.taken notes.old notes.new) }
    ensures once { TriesOnce N.Sink notes.old notes.new }
{
    if let Status::Ok | Status::Help = status {
        return status;
    }
    if let Some(line) = fixed_line(&status) {
        write_note(notes, line);
        return status;
    }
    match note_line(alloc, &status) {
        Ok(line) => {
            write_note(notes, line.as_slice());
            status
        }
        Err(_refused) => {
            write_note(notes, b"no memory\n");
            Status::NoMemory
        }
    }
}

/// Writes a line to the notes, or the front of it where they fail.
pub fn write_note<N: Sink>(notes: &mut N, line: &[u8])
    ensures taken { (n : ℕ)
        × IsNotedUpTo line.now (observed_sink N.faults N.taken notes.old notes.new) n }
    ensures once { TriesOnce N.Sink notes.old notes.new }
{
    let _ = put(notes, line, 1);
}

fn push_changed(name: &Bytes, first: u64, other: u64, line: &mut List<u8>) -> Result<(), NoMemory>
    ensures { OnOk result (line.new ≡ line.old ++ changed_text name.now first other) }
{
    line.extend_from_slice(b"file changed: ")?;
    push_blob(name.as_slice(), line)?;
    push_number(b" ", first, line)?;
    push_number(b" ", other, line)
}

fn push_schedule(refusal: ScheduleRefusal, line: &mut List<u8>) -> Result<(), NoMemory>
    ensures { OnOk result (line.new ≡ line.old ++ schedule_text refusal) }
{
    match refusal {
        ScheduleRefusal::Line(number) => {
            push_number(b"bad schedule: line ", number.into(), line)
        }
        ScheduleRefusal::NotAllowed(number) => {
            push_number(b"bad schedule: not allowed ", number.into(), line)
        }
        ScheduleRefusal::Length(len) => push_number(b"bad schedule: length ", len, line),
    }
}

fn lift_text(refusal: LiftRefusal) -> &'static [u8]
    ensures { result.now ≡ lift_text refusal }
{
    match refusal {
        LiftRefusal::Shape => b"not lifted: 1 shape",
        LiftRefusal::Part => b"not lifted: 2 part",
        LiftRefusal::Sum => b"not lifted: 3 sum",
        LiftRefusal::Many => b"not lifted: 4 many",
    }
}

fn push_work(note: &FaultNote, line: &mut List<u8>) -> Result<(), NoMemory>
    ensures { OnOk result (line.new ≡ line.old ++ work_text note.now) }
{
    push_place(note, line)?;
    push_attempt(note, line)
}

fn push_place(note: &FaultNote, line: &mut List<u8>) -> Result<(), NoMemory>
    ensures { OnOk result (line.new ≡ line.old ++ place_text note.now) }
{
    push_number(b"work fault: node ", note.node.into(), line)?;
    push_number(b" item ", note.item.into(), line)?;
    Ok(())
}

fn push_attempt(note: &FaultNote, line: &mut List<u8>) -> Result<(), NoMemory>
    ensures { OnOk result (line.new ≡ line.old ++ attempt_text note.now) }
{
    push_number(b" at ", note.at.into(), line)?;
    push_number(b" attempt ", note.attempt.into(), line)?;
    line.push(b' ')?;
    line.extend_from_slice(cause_text(note.cause))
}

fn cause_text(cause: Cause) -> &'static [u8]
    ensures { result.now ≡ cause_text cause }
{
    match cause {
        Cause::Call => b"call",
        Cause::Read => b"read",
    }
}

fn push_number(name: &[u8], number: u64, line: &mut List<u8>) -> Result<(), NoMemory>
    ensures { OnOk result (line.new ≡ line.old ++ (name.now ++ decimal number)) }
{
    line.extend_from_slice(name)?;
    line.extend_from_slice(Buffer::new().format(number).as_bytes())
}
