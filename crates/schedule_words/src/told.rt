ghost use Rattle.std.specs.Prelude.{◌≡◌, ◌++◌, [], OnOk, decimal};
ghost use Rattle.schedule_words.specs.Told.{before, claimed_text, count_text, counts_text, ended};
ghost use Rattle.schedule_words.specs.Told.{of_slot, position_line};
ghost use Rattle.schedule_words.specs.Told.{range_line, range_text, split_text, told_text, took_text};

use beam_values::{List, NoMemory, Range};
use itoa::Buffer;

/// What a slot got that asked for a job.
#[derive(Clone, Copy, Debug, PartialEq, Eq)]
pub enum Took {
    Range { node: u32, item: u32, range: Range },
    /// A batch of so many panes.
    Batch { node: u32, count: u64 },
    /// A key job of so many inputs.
    Key { node: u32, count: u64 },
    Nothing,
    Finished,
    Stopped,
}

/// What came of a claim.
#[derive(Clone, Copy, Debug, PartialEq, Eq)]
pub enum Claimed {
    /// It was granted, and the position was worked.
    Worked,
    Refused,
    /// It was granted, and the work on the position failed.
    Faulted,
}

/// What came of a line of a schedule.
#[derive(Clone, Copy, Debug, PartialEq, Eq)]
pub enum Told {
    Taken { slot: u32, what: Took },
    Claim { slot: u32, p: u64, what: Claimed },
    Ran { slot: u32, faulted: bool },
    /// Where the range was split, if it could be.
    Split { slot: u32, at: Option<u64> },
    /// How many panes the commit fired, and how many elements it dropped.
    Committed { slot: u32, panes: u32, drops: u32 },
    /// Whether the job failed as often as it may.
    Failed { slot: u32, spent: bool },
    /// Whether the run is stopped.
    Drained { spent: bool },
}

/// Appends the line that is printed of what came of a line of a schedule.
pub fn push_told(told: &Told, out: &mut List<u8>) -> Result<(), NoMemory>
    ensures { OnOk result (out.new ≡ out.old ++ told_text told.now) }
{
    match told {
        Told::Taken { slot, what } => {
            push_slot(b"take", *slot, out)?;
            push_took(what, out)
        }
        Told::Claim { slot, p, what } => {
            push_slot(b"claim", *slot, out)?;
            push_number(*p, out)?;
            push_last(claimed_text(*what), out)
        }
        Told::Ran { slot, faulted } => {
            push_slot(b"run", *slot, out)?;
            push_last(if *faulted { b"faulted" } else { b"ok" }, out)
        }
        Told::Split { slot, at } => {
            push_slot(b"split", *slot, out)?;
            push_split(*at, out)
        }
        Told::Committed { slot, panes, drops } => {
            push_slot(b"commit", *slot, out)?;
            push_counts(*panes, *drops, out)
        }
        Told::Failed { slot, spent } => {
            push_slot(b"fail", *slot, out)?;
            push_last(if *spent { b"spent" } else { b"retry" }, out)
        }
        Told::Drained { spent } => {
            push_word(b"drain", out)?;
            push_last(if *spent { b"spent" } else { b"finished" }, out)
        }
    }
}

/// Appends the line of a range, behind a word that says what it is.
pub fn push_range(
    word: &[u8],
    node: u32,
    item: u32,
    range: Range,
    out: &mut List<u8>,
) -> Result<(), NoMemory>
    ensures { OnOk result (out.new ≡ out.old ++ range_line word.now node item range) }
{
    push_word(word, out)?;
    push_ends(node, item, range, out)
}

/// Appends the line of a position, behind a word that says what it is.
pub fn push_position(
    word: &[u8],
    node: u32,
    item: u32,
    at: u64,
    out: &mut List<u8>,
) -> Result<(), NoMemory>
    ensures { OnOk result (out.new ≡ out.old ++ position_line word.now node item at) }
{
    push_word(word, out)?;
    push_number(node.into(), out)?;
    push_number(item.into(), out)?;
    push_last_number(at, out)
}

fn push_ends(node: u32, item: u32, range: Range, out: &mut List<u8>) -> Result<(), NoMemory>
    ensures { OnOk result (out.new ≡ out.old ++ range_text node item range) }
{
    push_number(node.into(), out)?;
    push_number(item.into(), out)?;
    push_number(range.from(), out)?;
    push_last_number(range.to(), out)
}

fn push_took(what: &Took, out: &mut List<u8>) -> Result<(), NoMemory>
    ensures { OnOk result (out.new ≡ out.old ++ took_text what.now) }
{
    match what {
        Took::Range { node, item, range } => push_range(b"range", *node, *item, *range, out),
        Took::Batch { node, count } => {
            push_word(b"batch", out)?;
            push_count(*node, *count, out)
        }
        Took::Key { node, count } => {
            push_word(b"key", out)?;
            push_count(*node, *count, out)
        }
        Took::Nothing => push_last(b"nothing", out),
        Took::Finished => push_last(b"finished", out),
        Took::Stopped => push_last(b"stopped", out),
    }
}

fn push_count(node: u32, count: u64, out: &mut List<u8>) -> Result<(), NoMemory>
    ensures { OnOk result (out.new ≡ out.old ++ count_text node count) }
{
    push_number(node.into(), out)?;
    push_last_number(count, out)
}

fn push_counts(panes: u32, drops: u32, out: &mut List<u8>) -> Result<(), NoMemory>
    ensures { OnOk result (out.new ≡ out.old ++ counts_text panes drops) }
{
    push_word(b"panes", out)?;
    push_number(panes.into(), out)?;
    push_word(b"drops", out)?;
    push_last_number(drops.into(), out)
}

fn push_split(at: Option<u64>, out: &mut List<u8>) -> Result<(), NoMemory>
    ensures { OnOk result (out.new ≡ out.old ++ ended (split_text at)) }
{
    match at {
        Some(at) => push_last_number(at, out),
        None => push_last(b"none", out),
    }
}

fn claimed_text(what: Claimed) -> &'static [u8]
    ensures { result.now ≡ claimed_text what }
{
    match what {
        Claimed::Worked => b"true",
        Claimed::Refused => b"false",
        Claimed::Faulted => b"faulted",
    }
}

// The command and the slot of a line, with a space after each.
fn push_slot(command: &[u8], slot: u32, out: &mut List<u8>) -> Result<(), NoMemory>
    ensures { OnOk result (out.new ≡ out.old ++ of_slot command.now slot []) }
{
    push_word(command, out)?;
    push_number(slot.into(), out)
}

// A word and the space after it.
fn push_word(word: &[u8], out: &mut List<u8>) -> Result<(), NoMemory>
    ensures { OnOk result (out.new ≡ out.old ++ before word.now []) }
{
    out.extend_from_slice(word)?;
    out.push(b' ')
}

fn push_number(number: u64, out: &mut List<u8>) -> Result<(), NoMemory>
    ensures { OnOk result (out.new ≡ out.old ++ before (decimal number) []) }
{
    push_word(Buffer::new().format(number).as_bytes(), out)
}

// The last word of a line, and its LF.
fn push_last(word: &[u8], out: &mut List<u8>) -> Result<(), NoMemory>
    ensures { OnOk result (out.new ≡ out.old ++ ended word.now) }
{
    out.extend_from_slice(word)?;
    out.push(b'\n')
}

fn push_last_number(number: u64, out: &mut List<u8>) -> Result<(), NoMemory>
    ensures { OnOk result (out.new ≡ out.old ++ ended (decimal number)) }
{
    push_last(Buffer::new().format(number).as_bytes(), out)
}
