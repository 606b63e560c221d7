//! What is printed after the last line of a schedule.
ghost use Rattle.std.specs.Prelude.{◌≡◌, ◌<◌, ◌++◌, List as ListOf, ℕ, true, false, IfOk, OnOk, length};
ghost use Rattle.std.specs.Prelude.{map, reverse};
ghost use Rattle.std.specs.List.{flat_map};
ghost use Rattle.std.specs.List.Sorted.{IsSorted};
ghost use Rattle.beam_values.specs.Bags.{IsSameBag};
ghost use Rattle.book_core.specs.Book.{live_pieces};
ghost use Rattle.book_core.specs.Changes.{done_cmp};
ghost use Rattle.beam_text.specs.Parts.{AppendsText};
ghost use Rattle.schedule_words.specs.Told.{range_line};
ghost use Rattle.lone_worker.specs.Work.{Base};
ghost use Rattle.schedule_replay.specs.Printing.{AreRangesPrinted};
ghost use Rattle.schedule_replay.specs.Replays.{IsEnding, IsFinished, IsRendered, as_done, break};
ghost use Rattle.schedule_replay.specs.Replays.{pending_line, position_of};
ghost use Rattle.schedule_replay.specs.Standing.{IsStanding};

use crate::slots::may_take;
use crate::stand::Stand;
use beam_text::render;
use beam_values::{Bytes, Dead, Done, List, NoMemory, Piece};
use book_core::{Book, Taken};
use schedule_words::{push_position, push_range};
use std::alloc::Global;
use std::cmp::Ordering;

/// Appends the ranges that are done, live and pending and the positions that were set aside, and of a run that is finished the
/// rendering of its outcome.
pub fn push_ending(alloc: Global, mut stand: Stand, out: &mut List<u8>) -> Result<(), NoMemory>
    requires standing { (base : Base) × IsStanding base stand }
    ensures { OnOk result (AppendsText (IsEnding stand.book) out.old out.new) }
{
    if push_stand(alloc, &mut stand, out)? {
        let Stand { book, .. } = stand;
        push_outcome(alloc, book, out)
    } else {
        Ok(())
    }
}

// Appends the ranges and the positions. Answers whether the run is finished, and then the book is as it was.
fn push_stand(alloc: Global, stand: &mut Stand, out: &mut List<u8>) -> Result<bool, NoMemory>
    requires standing { (base : Base) × IsStanding base stand.old }
    ensures ranges { OnOk result (AreRangesPrinted stand.old.book out.old out.new) }
    ensures finished { IfOk result (λ finished. finished ≡ true
        → IsFinished stand.old.book × (stand.new.book ≡ stand.old.book)) }
    ensures unfinished { IfOk result
        (λ finished. finished ≡ false → IsFinished stand.old.book → ⊥) }
{
    push_all_ranges(alloc, &stand.book, stand.works.len(), out)?;
    is_finished(stand)
}

// A take that finds nothing left leaves the book as it is.
fn is_finished(stand: &mut Stand) -> Result<bool, NoMemory>
    requires standing { (base : Base) × IsStanding base stand.old }
    ensures finished { IfOk result (λ finished. finished ≡ true
        → IsFinished stand.old.book × (stand.new.book ≡ stand.old.book)) }
    ensures unfinished { IfOk result
        (λ finished. finished ≡ false → IsFinished stand.old.book → ⊥) }
{
    if !may_take(stand.works.as_slice(), 0) {
        return Ok(false);
    }
    match stand.book.take(0)? {
        Taken::Finished => Ok(true),
        _ => Ok(false),
    }
}

fn push_all_ranges(
    alloc: Global,
    book: &Book,
    slots: usize,
    out: &mut List<u8>,
) -> Result<(), NoMemory>
    requires slots { slots ≡ length book.now.slots }
    ensures { OnOk result (AreRangesPrinted book.now out.old out.new) }
{
    few_slots(book);
    push_break(out)?;
    push_ranges(b"done", book.done(), out)?;
    let live = live_ranges(alloc, book, slots)?;
    push_ranges(b"live", live.as_slice(), out)?;
    push_pending(book.pending(), out)?;
    push_dead(book.dead(), out)
}

// A law: slots are numbered with 32 bits.
fn few_slots(book: &Book)
    ensures { length book.now.slots < 4294967296 }
{
    book.is_sane();
}

fn push_break(out: &mut List<u8>) -> Result<(), NoMemory>
    ensures { OnOk result (out.new ≡ out.old ++ break) }
{
    out.extend_from_slice(b"--\n")
}

fn push_outcome(alloc: Global, book: Book, out: &mut List<u8>) -> Result<(), NoMemory>
    ensures { OnOk result ((text : ListOf ℕ) × IsRendered book text
        × (out.new ≡ out.old ++ (break ++ text))) }
{
    let text = rendering(alloc, book)?;
    push_break(out)?;
    out.extend_from_slice(text.as_slice())
}

fn rendering(alloc: Global, book: Book) -> Result<Bytes, NoMemory>
    ensures { IfOk result (IsRendered book) }
{
    let outcome = book.outcome()?;
    render(alloc, &outcome)
}

fn push_ranges(word: &[u8], ranges: &[Done], out: &mut List<u8>) -> Result<(), NoMemory>
    ensures { OnOk result (out.new ≡ out.old
        ++ flat_map (λ done. range_line word.now done.node done.item done.range) ranges.now) }
{
    for done in ranges {
        push_range(word, done.node, done.item, done.range, out)?;
    }
    Ok(())
}

fn push_dead(dead: &[Dead], out: &mut List<u8>) -> Result<(), NoMemory>
    ensures { OnOk result (out.new ≡ out.old ++ flat_map position_of dead.now) }
{
    for position in dead {
        push_position(b"dead", position.node, position.item, position.at, out)?;
    }
    Ok(())
}

// The first piece to be taken stands last.
fn push_pending(pieces: &[Piece], out: &mut List<u8>) -> Result<(), NoMemory>
    ensures { OnOk result
        (out.new ≡ out.old ++ flat_map pending_line (reverse pieces.now)) }
{
    for piece in pieces.iter().rev() {
        push_range(b"pending", piece.node, piece.item, piece.range, out)?;
    }
    Ok(())
}

// What slots work, by node, item and range.
fn live_ranges(alloc: Global, book: &Book, slots: usize) -> Result<Vec<Done>, NoMemory>
    requires slots { slots ≡ length book.now.slots }
    requires few { slots < 4294967296 }
    ensures all { IfOk result
        (λ live. IsSameBag live.items (map as_done (live_pieces book.now))) }
    ensures ascending { IfOk result (λ live. IsSorted done_cmp live.items) }
{
    let mut live = Vec::new(alloc);
    for slot in 0..slots as u32 {
        if let Some(piece) = book.live(slot) {
            live.push(Done {
                node: piece.node,
                item: piece.item,
                range: piece.range,
            })?;
        }
    }
    live.sort_by(|a, b| cmp_ranges(a, b))?;
    Ok(live)
}

fn cmp_ranges(a: &Done, b: &Done) -> Ordering
    ensures { result ≡ done_cmp a.now b.now }
{
    let by_node = a.node.cmp(&b.node);
    let by_item = a.item.cmp(&b.item);
    let by_from = a.range.from().cmp(&b.range.from());
    let by_to = a.range.to().cmp(&b.range.to());
    by_node.then(by_item.then(by_from.then(by_to)))
}
