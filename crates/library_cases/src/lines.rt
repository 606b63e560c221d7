use beam_lines::{TimedLine, first_line, key_field, time_of, timed_line};
use case_files::Case;

/// The first line of a text, and where the next one starts.
pub fn answer_line(case: &mut Case<'_>) {
    let text = case.text();
    let line = first_line(text.as_slice());
    case.say_text(line.text);
    case.say_number(line.next as u64);
}

/// What a line of timed lines says.
pub fn answer_timed(case: &mut Case<'_>) {
    let line = case.text();
    match timed_line(line.as_slice()) {
        TimedLine::Timed(time, rest) => {
            case.say_number(time.ms());
            case.say_text(rest);
        }
        TimedLine::Declared(mark) => {
            case.say("mark");
            case.say_number(mark.ms());
        }
        TimedLine::Poison => case.say("poison"),
    }
}

/// The time that a text writes.
pub fn answer_time(case: &mut Case<'_>) {
    let text = case.text();
    match time_of(text.as_slice()) {
        Some(time) => case.say_number(time.ms()),
        None => case.say("none"),
    }
}

/// The key and the part of a text.
pub fn answer_key(case: &mut Case<'_>) {
    let text = case.text();
    let (key, part) = key_field(text.as_slice());
    case.say_text(key);
    case.say_text(part);
}
