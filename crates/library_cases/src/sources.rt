use beam_values::{Args, Bytes, NoMemory, SourceKind};
use case_files::Case;
use plain_model::{Emitted, emission, lines, next_position};
use std::alloc::Global;

/// The greatest count and number of a source that reads no file.
const MOST: u64 = 1_000_000;

/// The lines of a file.
pub fn answer_lines(case: &mut Case<'_>) {
    let file = case.text();
    match lines(case.alloc(), file.as_slice()) {
        Ok(lines) => {
            for line in lines.as_slice() {
                case.say_text(line.as_slice());
            }
            if lines.is_empty() {
                case.say("none");
            }
        }
        Err(refused) => case.no_memory(refused),
    }
}

// A source that reads a file, or one with a count and a number.
#[derive(Drop)]
enum Source {
    File(SourceKind, Bytes),
    Counted(SourceKind, u64, u64),
}

// `lines TEXT`, `timed TEXT`, `count COUNT STEP` or `made COUNT NUMBER`.
fn read_source(case: &mut Case<'_>) -> Source {
    match case.word() {
        "lines" => Source::File(SourceKind::Lines, case.text()),
        "timed" => Source::File(SourceKind::TimedLines, case.text()),
        "count" => Source::Counted(SourceKind::Count, case.number(), case.number()),
        "made" => Source::Counted(SourceKind::Made, case.number(), case.number()),
        _ => {
            case.fail("there is no such source");
            Source::Counted(SourceKind::Count, 0, 0)
        }
    }
}

/// What a position of a source emits.
pub fn answer_emission(case: &mut Case<'_>) {
    let source = read_source(case);
    let p = case.number();
    match emitted_at(case.alloc(), &source, p) {
        Some(Ok(emitted)) => say_emitted(&emitted, case),
        Some(Err(refused)) => case.no_memory(refused),
        None => case.fail("the source has no such position"),
    }
}

fn emitted_at(alloc: Global, source: &Source, p: u64) -> Option<Result<Emitted, NoMemory>> {
    match source {
        Source::File(work, file) => emitted_in_file(alloc, *work, file.as_slice(), p),
        Source::Counted(work, count, number) => emitted_in_count(alloc, *work, *count, *number, p),
    }
}

fn emitted_in_file(
    alloc: Global,
    work: SourceKind,
    file: &[u8],
    p: u64,
) -> Option<Result<Emitted, NoMemory>> {
    match work {
        SourceKind::Lines | SourceKind::TimedLines if p < file.len() as u64 => {
            Some(emission(alloc, work, &Args::Nothing, file, p))
        }
        _ => None,
    }
}

fn emitted_in_count(
    alloc: Global,
    work: SourceKind,
    count: u64,
    number: u64,
    p: u64,
) -> Option<Result<Emitted, NoMemory>> {
    match work {
        SourceKind::Count | SourceKind::Made if p < count && count <= MOST && number <= MOST => {
            Some(emission(alloc, work, &Args::Two(count, number), b"", p))
        }
        _ => None,
    }
}

fn say_emitted(emitted: &Emitted, case: &mut Case<'_>) {
    let Emitted::Emits { values, declared } = emitted else {
        return case.say("poison");
    };
    for value in values.as_slice() {
        case.say_number(value.time.ms());
        case.say_value(&value.value);
    }
    match declared {
        Some(mark) => {
            case.say("mark");
            case.say_number(mark.ms());
        }
        None if values.is_empty() => case.say("none"),
        None => {}
    }
}

/// The position after one of a source.
pub fn answer_next(case: &mut Case<'_>) {
    let source = read_source(case);
    let p = case.number();
    match next_at(&source, p) {
        Some(next) => case.say_number(next),
        None => case.fail("the source has no such position"),
    }
}

fn next_at(source: &Source, p: u64) -> Option<u64> {
    match source {
        Source::File(work, file) => next_in_file(*work, file.as_slice(), p),
        Source::Counted(work, _, _) => next_number(*work, p),
    }
}

fn next_in_file(work: SourceKind, file: &[u8], p: u64) -> Option<u64> {
    match work {
        SourceKind::Lines | SourceKind::TimedLines if p < file.len() as u64 => {
            Some(next_position(work, file, p))
        }
        _ => None,
    }
}

fn next_number(work: SourceKind, p: u64) -> Option<u64> {
    match work {
        SourceKind::Count | SourceKind::Made if p < MOST => Some(next_position(work, b"", p)),
        _ => None,
    }
}
