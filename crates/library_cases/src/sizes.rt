use beam_values::{Bytes, Element, Entry, Value};
use case_files::Case;

/// How many bytes of memory a value of a type takes, of which a run holds millions.
pub fn answer_size(case: &mut Case<'_>) {
    let size = match case.word() {
        "Bytes" => size_of::<Bytes>(),
        "Value" => size_of::<Value>(),
        "Element" => size_of::<Element>(),
        "Entry" => size_of::<Entry>(),
        _ => {
            case.fail("there is no such type");
            0
        }
    };
    case.say_number(size as u64);
}
