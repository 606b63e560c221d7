use crate::case::Case;
use crate::values::read_value;
use beam_values::{Element, PaneTag, Timing};

/// An element as its time, its window, the timing and the index of its pane, and its value.
pub fn read_element(case: &mut Case<'_>) -> Element {
    Element {
        time: case.time(),
        span: case.span(),
        pane: PaneTag {
            timing: read_timing(case),
            index: case.number(),
        },
        value: read_value(case),
    }
}

fn read_timing(case: &mut Case<'_>) -> Timing {
    match case.word() {
        "EARLY" => Timing::Early,
        "ON_TIME" => Timing::OnTime,
        "LATE" => Timing::Late,
        "UNKNOWN" => Timing::Unknown,
        _ => {
            case.fail("there is no such timing");
            Timing::Unknown
        }
    }
}

/// An element in the form in which it is read.
pub fn say_element(element: &Element, case: &mut Case<'_>) {
    case.say_number(element.time.ms());
    case.say_span(element.span);
    case.say(match element.pane.timing {
        Timing::Early => "EARLY",
        Timing::OnTime => "ON_TIME",
        Timing::Late => "LATE",
        Timing::Unknown => "UNKNOWN",
    });
    case.say_number(element.pane.index);
    case.say_value(&element.value);
}
