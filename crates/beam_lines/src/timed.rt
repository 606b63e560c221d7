ghost use Rattle.std.specs.Prelude.{◌≡◌, ◌+◌, ◌-◌, ◌≤◌, ◌<◌, ◌^◌, ℕ, length, IfSome, None, Some, drop};
ghost use Rattle.std.specs.List.{position_or_len};
ghost use Rattle.std.specs.Option.{option_map};
ghost use Rattle.beam_values.specs.Functions as model;
ghost use Rattle.beam_lines.specs.Shown.{shown, stamp_of, stamped};

use crate::line::len_before;
use beam_values::Time;

const TAB: u8 = b'\t';

const MOST_DIGITS: usize = 16;

/// A line of timed lines. Times are in milliseconds.
#[derive(Clone, Copy)]
pub enum TimedLine<'a> {
    /// A time, a TAB and this text.
    Timed(Time, &'a [u8]),
    /// `!` and a time: a watermark, and no element.
    Declared(Time),
    /// Every other line, the empty one included.
    Poison,
}

/// Reads a line without its end.
pub fn timed_line(line: &[u8]) -> TimedLine<'_>
    ensures { shown result ≡ model.timed_line line.now }
{
    if let Some((b'!', time)) = line.split_first() {
        return match time_of(time) {
            Some(mark) => TimedLine::Declared(mark),
            None => TimedLine::Poison,
        };
    }
    stamped_line(line)
}

// Reads a line that begins with a time.
fn stamped_line(line: &[u8]) -> TimedLine<'_>
    ensures { shown result ≡ stamped line.now }
{
    match line.split_first() {
        Some((b'-', rest)) => match read_stamp(rest) {
            Some(stamp) => timed_text(Time::new(-(stamp.magnitude as i64)), rest, stamp.len),
            None => TimedLine::Poison,
        },
        _ => match read_stamp(line) {
            Some(stamp) => timed_text(Time::new(stamp.magnitude as i64), line, stamp.len),
            None => TimedLine::Poison,
        },
    }
}

// A time that `len` bytes write, then a TAB, then a text.
fn timed_text(time: Option<Time>, line: &[u8], len: usize) -> TimedLine<'_>
    requires { len < length line.now }
    ensures { shown result ≡ model.timed_as time (drop (len + 1) line.now) }
{
    match time {
        Some(time) => TimedLine::Timed(time, line.split_at(len + 1).1),
        None => TimedLine::Poison,
    }
}

// The digits before the first TAB of a text: the number that they write, and how many they are.
#[derive(Clone, Copy)]
struct Stamp {
    magnitude: u64,
    len: usize,
}

// Reads digits up to a TAB, without searching for the TAB first.
fn read_stamp(text: &[u8]) -> Option<Stamp>
    ensures value { option_map (λ stamp. stamp.magnitude) result ≡ stamp_of text.now }
    ensures len { IfSome result (λ stamp. stamp.len ≡ position_or_len model.is_tab text.now) }
    ensures inside { IfSome result (λ stamp. stamp.len < length text.now) }
    ensures within { IfSome result (λ stamp. stamp.magnitude ≤ 9223372036854775) }
{
    let mut value = 0u64;
    for len in 0..text.len().min(MOST_DIGITS + 1) {
        let byte = text[len];
        if byte.is_ascii_digit() {
            value = 10 * value + u64::from(byte - b'0');
        } else if byte == TAB && len > 0 && value <= Time::GREATEST_MS as u64 {
            return Some(Stamp {
                magnitude: value,
                len,
            });
        } else {
            return None;
        }
    }
    None
}

/// An optional `-` and 1 to 16 digits, within the bounds of a time.
pub fn time_of(text: &[u8]) -> Option<Time>
    ensures { result ≡ model.time_of text.now }
{
    match text.split_first() {
        Some((b'-', digits)) => Time::new(-(magnitude_of(digits)? as i64)),
        _ => Time::new(magnitude_of(text)? as i64),
    }
}

// The number that 1 to 16 digits write, if it is within the bounds of a time.
#[tactic(auto, using(crate::proofs::Digits::below_next_power, crate::proofs::Digits::below_fifteen))]
fn magnitude_of(digits: &[u8]) -> Option<u64>
    ensures value { result ≡ model.magnitude digits.now }
    ensures within { IfSome result (λ n. n ≤ 9223372036854775) }
{
    if digits.is_empty() || digits.len() > MOST_DIGITS {
        return None;
    }
    let mut value = 0u64;
    for digit in digits {
        if !digit.is_ascii_digit() {
            return None;
        }
        value = 10 * value + u64::from(*digit - b'0');
    }
    if value > Time::GREATEST_MS as u64 {
        return None;
    }
    Some(value)
}

/// The text before the first TAB, and the text after it. Without a TAB the second one is empty.
pub fn key_field(text: &[u8]) -> (&[u8], &[u8])
    ensures key { result.0.now ≡ (model.key_field text.now).key }
    ensures part { result.1.now ≡ (model.key_field text.now).part }
{
    let len = len_before(TAB, text);
    let (key, rest) = text.split_at(len);
    match rest.split_first() {
        Some((_, part)) => (key, part),
        None => (key, rest),
    }
}
