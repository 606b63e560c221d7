ghost use Rattle.std.specs.Prelude.{◌≡◌, length};
ghost use Rattle.beam_ports.specs.Observed.{observed_sink, observed_store};
ghost use Rattle.command_ends.specs.Retrying.{TriesOnce, TriesSink, TriesStore};
ghost use Rattle.command_words.specs.Commands.{words_of};
ghost use Rattle.plan_drawing.specs.Drawing.{drawing_of};
ghost use Rattle.beam_draw.specs.Ends.{IsDrawEnd, IsTextWritten, attempts, file_asked};
ghost use Rattle.beam_draw.specs.Notes.{IsDrawNoted};

use beam_ports::{Sink, Store};
use command_ends::{PlanRead, Status, noted, read_plan_file, write_note, written};
use plan_drawing::draw;
use std::alloc::Global;

/// How often opening, reading and writing may fail.
const ATTEMPTS: u32 = 3;

/// Draws the plan of the file that the words name, the name of the program first: the drawing goes to `out`,
/// and one line goes to `notes` where the end isn't Ok.
///
/// `ends` says of each end what it means and why it comes: at Ok `out` took exactly the drawing of the plan
/// that the told file means as a document, under the names that it gives its nodes. The notes are those of
/// `beam_run`, but for the usage.
pub fn draw_plan<S: Store, W: Sink, N: Sink>(
    alloc: Global,
    words: &[String],
    store: &mut S,
    out: &mut W,
    notes: &mut N,
) -> Status
    ensures ends { IsDrawEnd (file_asked (words_of words.now))
        (observed_store S.files S.faults store.old store.new)
        (observed_sink W.faults W.taken out.old out.new) result }
    ensures noted { IsDrawNoted result (observed_sink N.faults N.taken notes.old notes.new) }

    // Of a store and sinks that count exactly: opening, reading and writing fail as often as they may where the end
    // tells of that, and else less often. After the first failure of the notes nothing more is written to them.
    ensures tries { (result ≡ Status.NoMemory → ⊥)
        → TriesStore S.Store attempts 0 store.old store.new result }
    ensures writes { TriesSink W.Sink attempts out.old out.new result }
    ensures notes_once { TriesOnce N.Sink notes.old notes.new }
{
    let status = drawn(alloc, words, store, out);
    match status {
        Status::Usage => {
            write_note(notes, b"usage: beam_draw PLAN\n");
            Status::Usage
        }
        status => noted(alloc, status, notes),
    }
}

// The end before its note is written.
fn drawn<S: Store, W: Sink>(alloc: Global, words: &[String], store: &mut S, out: &mut W) -> Status
    ensures ends { IsDrawEnd (file_asked (words_of words.now))
        (observed_store S.files S.faults store.old store.new)
        (observed_sink W.faults W.taken out.old out.new) result }
    ensures tries { TriesStore S.Store attempts 0 store.old store.new result }
    ensures writes { TriesSink W.Sink attempts out.old out.new result }
{
    let [_program, file] = words else {
        return Status::Usage;
    };
    match read_plan_file(alloc, store, file.as_bytes(), ATTEMPTS) {
        Ok(read) => draw_read(alloc, &read, out),
        Err(status) => status,
    }
}

// Writes the drawing of a plan that was read.
fn draw_read<W: Sink>(alloc: Global, read: &PlanRead, out: &mut W) -> Status
    requires { length read.now.names ≡ length read.now.graph.nodes }
    ensures ends { IsTextWritten (observed_sink W.faults W.taken out.old out.new)
        (drawing_of read.now.names read.now.graph) result }
    ensures writes { TriesSink W.Sink attempts out.old out.new result }
{
    match draw(alloc, read.names.as_slice(), read.graph.plan()) {
        Ok(text) => written(out, text.as_slice(), ATTEMPTS),
        Err(_refused) => Status::NoMemory,
    }
}

/// Says that there is no memory.
pub fn no_memory<N: Sink>(notes: &mut N) -> Status
    ensures { result ≡ Status.NoMemory }
{
    write_note(notes, b"no memory\n");
    Status::NoMemory
}
