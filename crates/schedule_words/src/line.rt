ghost use Rattle.std.specs.Prelude.{◌≡◌, ◌∷◌, [], IfSome, MatchOption};
ghost use Rattle.std.specs.List.{slice_split};
ghost use Rattle.schedule_words.specs.Schedules.{IsProper, is_space, line_of, line_of_words};
ghost use Rattle.schedule_words.specs.Schedules.{slot_line, split_line, split_words};

use crate::number::number_of;
use memchr::memchr;

/// What a line of a schedule asks for. A slot is named by its number.
#[derive(Clone, Copy, Debug, PartialEq, Eq)]
pub enum Line {
    /// The slot takes a job.
    Take { slot: u32 },
    /// It claims the next position of its range, and works it.
    Claim { slot: u32 },
    /// It runs its batch or its key job.
    RunJob { slot: u32 },
    /// Its range is split at a part of what is left of it: a numerator, and a denominator of 1 to 1000000,
    /// which is no less.
    Split { slot: u32, num: u32, den: u32 },
    Commit { slot: u32 },
    Fail { slot: u32 },
    /// The first slot works jobs until there is none or the run is stopped.
    Drain,
}

/// The greatest number of digits of a slot.
const SLOT_DIGITS: usize = 2;

/// The greatest number of digits of a part of a fraction.
const PART_DIGITS: usize = 7;

/// The greatest denominator of a split.
const GREATEST_DENOMINATOR: u32 = 1_000_000;

const SPACE: u8 = b' ';

/// What a line of a schedule asks for, if it has the form of one.
pub fn read_line(line: &[u8]) -> Option<Line>
    ensures exact { result ≡ line_of line.now }
    ensures proper { IfSome result IsProper }
{
    match cut(line) {
        None => lone_word(line),
        Some((word, rest)) => words_after(word, rest),
    }
}

fn lone_word(word: &[u8]) -> Option<Line>
    ensures exact { result ≡ line_of_words (word.now ∷ []) }
    ensures proper { IfSome result IsProper }
{
    if word == b"drain".as_slice() {
        Some(Line::Drain)
    } else {
        None
    }
}

// A word, and others after it.
fn words_after(word: &[u8], rest: &[u8]) -> Option<Line>
    ensures exact { result ≡ line_of_words (word.now ∷ slice_split is_space rest.now) }
    ensures proper { IfSome result IsProper }
{
    match cut(rest) {
        None => slot_line(word, number_of(rest, SLOT_DIGITS)?),
        Some((slot, parts)) => parts_after(word, slot, parts),
    }
}

// Two words, and others after them.
fn parts_after(word: &[u8], slot: &[u8], parts: &[u8]) -> Option<Line>
    ensures exact { result
        ≡ line_of_words (word.now ∷ (slot.now ∷ slice_split is_space parts.now)) }
    ensures proper { IfSome result IsProper }
{
    match cut(parts) {
        None => None,
        Some((num, den)) => last_after(word, slot, num, den),
    }
}

// Three words, and one or more after them.
#[tactic(auto, using(crate::proofs::Cuts::five_words))]
fn last_after(word: &[u8], slot: &[u8], num: &[u8], den: &[u8]) -> Option<Line>
    ensures exact { result
        ≡ line_of_words (word.now ∷ (slot.now ∷ (num.now ∷ slice_split is_space den.now))) }
    ensures proper { IfSome result IsProper }
{
    match cut(den) {
        None => split_words(word, slot, num, den),
        Some(_) => None,
    }
}

fn slot_line(word: &[u8], slot: u32) -> Option<Line>
    ensures exact { result ≡ slot_line word.now slot }
    ensures proper { IfSome result IsProper }
{
    if word == b"take".as_slice() {
        Some(Line::Take { slot })
    } else if word == b"claim".as_slice() {
        Some(Line::Claim { slot })
    } else if word == b"run".as_slice() {
        Some(Line::RunJob { slot })
    } else if word == b"commit".as_slice() {
        Some(Line::Commit { slot })
    } else if word == b"fail".as_slice() {
        Some(Line::Fail { slot })
    } else {
        None
    }
}

fn split_words(word: &[u8], slot: &[u8], num: &[u8], den: &[u8]) -> Option<Line>
    ensures exact { result ≡ split_words word.now slot.now num.now den.now }
    ensures proper { IfSome result IsProper }
{
    if word != b"split".as_slice() {
        return None;
    }
    let slot = number_of(slot, SLOT_DIGITS)?;
    let num = number_of(num, PART_DIGITS)?;
    let den = number_of(den, PART_DIGITS)?;
    split_line(slot, num, den)
}

fn split_line(slot: u32, num: u32, den: u32) -> Option<Line>
    ensures exact { result ≡ split_line slot num den }
    ensures proper { IfSome result IsProper }
{
    if num <= den && 1 <= den && den <= GREATEST_DENOMINATOR {
        Some(Line::Split { slot, num, den })
    } else {
        None
    }
}

// The first word of several, and what stands behind its space.
fn cut(text: &[u8]) -> Option<(&[u8], &[u8])>
    ensures { MatchOption result (slice_split is_space text.now ≡ text.now ∷ [])
        (λ parts. slice_split is_space text.now ≡ parts.0.now ∷ slice_split is_space parts.1.now) }
{
    match memchr(SPACE, text) {
        Some(at) => Some((text.split_at(at).0, text.split_at(at + 1).1)),
        None => None,
    }
}
