ghost use Rattle.std.specs.Prelude.{◌≡◌, ◌+◌, ◌*◌, ◌^◌, ◌<◌, ◌≤◌, pos, [], ◌∷◌, ◌++◌, length};
ghost use Rattle.std.specs.Prelude.{codes, decimal, IfOk};
ghost use Rattle.beam_values.specs.Lines.{line_at, next_start};
ghost use Rattle.beam_values.specs.Functions as functions;
ghost use Rattle.beam_model.specs.Values.{int};
ghost use Rattle.beam_model.specs.Positions as model;
ghost use Rattle.beam_model.specs.Functions.{first_arg, second_arg};
ghost use Rattle.plain_model.specs.Emissions.{shown, IsWithinLimits};

use beam_lines::{TimedLine, first_line, starts_line, timed_line};
use beam_values::{Args, Bytes, List, NoMemory, SourceKind, Time, Value};
use itoa::Buffer;
use std::alloc::Global;

/// A value at a time, before it is an element.
#[derive(Debug, Drop)]
pub struct TimedValue {
    pub value: Value,
    pub time: Time,
}

/// What a position of a source item gives.
#[derive(Debug, Drop)]
pub enum Emitted {
    /// Values in order, and the watermark that the position declares, if any.
    Emits {
        values: List<TimedValue>,
        declared: Option<Time>,
    },
    /// The position can't be worked: its line is no timed line.
    Poison,
}

/// What a position of a source emits. `file` is what a file's source reads; the other sources look at
/// their arguments alone. In a file only the position where a line starts emits it, and there is
/// nothing at the end of an item or past it.
pub fn emission(
    alloc: Global,
    work: SourceKind,
    args: &Args,
    file: &[u8],
    p: u64,
) -> Result<Emitted, NoMemory>
    requires { IsWithinLimits work args.now }
    ensures { IfOk result (λ emitted. shown emitted ≡ model.emission work args.now file.now p) }
{
    if p < positions_in(work, args, file) {
        emission_within(alloc, work, args, file, p)
    } else {
        Ok(emits_nothing(alloc, None))
    }
}

/// How many positions an item has: the bytes of its file, or what is counted or made.
fn positions_in(work: SourceKind, args: &Args, file: &[u8]) -> u64
    ensures { result ≡ model.positions_in work args.now file.now }
{
    match work {
        SourceKind::Lines | SourceKind::TimedLines => file.len() as u64,
        SourceKind::Count | SourceKind::Made => first_argument(args),
    }
}

fn emission_within(
    alloc: Global,
    work: SourceKind,
    args: &Args,
    file: &[u8],
    p: u64,
) -> Result<Emitted, NoMemory>
    requires limits { IsWithinLimits work args.now }
    requires position { p < model.positions_in work args.now file.now }
    ensures { IfOk result
        (λ emitted. shown emitted ≡ model.emission_within work args.now file.now p) }
{
    match work {
        SourceKind::Lines | SourceKind::TimedLines if !starts_line(file, p as usize) => {
            Ok(emits_nothing(alloc, None))
        }
        SourceKind::Lines => {
            let line = Bytes::from_slice(alloc, line_at(file, p as usize))?;
            emits_one(alloc, Value::Blob(line), Time::LEAST)
        }
        SourceKind::TimedLines => timed_emission(alloc, line_at(file, p as usize)),
        SourceKind::Count => count_emission(alloc, second_argument(args), p),
        SourceKind::Made => made_emission(alloc, second_argument(args), p),
    }
}

/// The position that is worked after this one: the next line start, or the next number. After the last
/// line start it is the length of the file.
pub fn next_position(work: SourceKind, file: &[u8], p: u64) -> u64
    requires { p + 1 < 2 ^ 64 }
    ensures { result ≡ model.next_position work file.now p }
{
    match work {
        SourceKind::Lines | SourceKind::TimedLines => next_start(file, p as usize) as u64,
        SourceKind::Count | SourceKind::Made => p + 1,
    }
}

fn next_start(file: &[u8], p: usize) -> usize
    ensures { result ≡ next_start file.now p }
{
    if p < file.len() {
        p + first_line(file.split_at(p).1).next
    } else {
        file.len()
    }
}

fn first_argument(args: &Args) -> u64
    ensures { result ≡ first_arg args.now }
{
    match args {
        Args::Two(first, _) => *first,
        _ => 0,
    }
}

fn second_argument(args: &Args) -> u64
    ensures { result ≡ second_arg args.now }
{
    match args {
        Args::Two(_, second) => *second,
        _ => 0,
    }
}

fn emits_nothing(alloc: Global, declared: Option<Time>) -> Emitted
    ensures { shown result ≡ model.Emits [] declared }
{
    Emitted::Emits {
        values: List::new(alloc),
        declared,
    }
}

fn emits_one(alloc: Global, value: Value, time: Time) -> Result<Emitted, NoMemory>
    ensures { IfOk result (λ emitted. shown emitted ≡ model.emits_one value time) }
{
    let mut values = List::new(alloc);
    values.push(TimedValue { value, time })?;
    Ok(Emitted::Emits {
        values,
        declared: None,
    })
}

fn line_at(file: &[u8], p: usize) -> &[u8]
    requires { p < length file.now }
    ensures { result.now ≡ line_at file.now p }
{
    first_line(file.split_at(p).1).text
}

// What a line of timed lines emits.
fn timed_emission(alloc: Global, line: &[u8]) -> Result<Emitted, NoMemory>
    ensures { IfOk result
        (λ emitted. shown emitted ≡ model.line_emission (functions.timed_line line.now)) }
{
    match timed_line(line) {
        TimedLine::Timed(time, text) => {
            let text = Bytes::from_slice(alloc, text)?;
            emits_one(alloc, Value::Blob(text), time)
        }
        TimedLine::Declared(mark) => Ok(emits_nothing(alloc, Some(mark))),
        TimedLine::Poison => Ok(Emitted::Poison),
    }
}

// The number of the position, that many steps after time 0.
fn count_emission(alloc: Global, step: u64, p: u64) -> Result<Emitted, NoMemory>
    requires counted { p < 1000000000 }
    requires steps { step ≤ 1000000 }
    ensures { IfOk result
        (λ emitted. shown emitted ≡ model.emits_one (int (pos p)) (pos (p * step))) }
{
    emits_one(alloc, Value::Int(p as i64), time_at(p * step))
}

// The line is put together without its time, which is known.
fn made_emission(alloc: Global, number: u64, p: u64) -> Result<Emitted, NoMemory>
    requires counted { p < 1000000 }
    requires number { number ≤ 1000000 }
    ensures { IfOk result
        (λ emitted. shown emitted
        ≡ model.line_emission (functions.timed_line (model.made_line number p))) }
{
    let time = time_at(100 * p + 37 * (p + number) % 100);
    let text = made_text(alloc, (7 * p + number) % 16, (p + number) % 1000)?;
    emits_one(alloc, Value::Blob(text), time)
}

// A key and a number as the fields of a made-up line.
fn made_text(alloc: Global, key: u64, number: u64) -> Result<Bytes, NoMemory>
    ensures { IfOk result (λ text. text ≡ codes "k" ++ (decimal key ++ 9 ∷ decimal number)) }
{
    let mut digits = Buffer::new();
    let mut text = Bytes::new(alloc);
    text.push(b'k')?;
    text.extend_from_slice(digits.format(key).as_bytes())?;
    text.push(b'\t')?;
    text.extend_from_slice(digits.format(number).as_bytes())?;
    Ok(text)
}

// A number of milliseconds within the bounds of a time.
fn time_at(ms: u64) -> Time
    requires { ms ≤ 9223372036854775 }
    ensures { result ≡ pos ms }
{
    match Time::new(ms as i64) {
        Some(time) => time,
        None => unreachable!(),
    }
}
