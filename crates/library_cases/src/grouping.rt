use crate::windows::add_windows;
use beam_values::{Element, List, NoMemory, PaneTag, Span, Strategy, Time, Timing, Value};
use case_files::{Case, read_strategy, read_value, say_element};
use plain_model::grouped;
use std::alloc::Global;

/// The panes of values at times under a strategy: `STRATEGY; TIME VALUE; TIME VALUE`.
pub fn answer_grouped(case: &mut Case<'_>) {
    let strategy = read_strategy(case);
    let mut elements = List::new(case.alloc());
    for _ in 0..case.left() {
        if !case.takes(b';') {
            break;
        }
        add_elements(&strategy, &mut elements, case);
    }
    match grouped(case.alloc(), &strategy, elements) {
        Ok(panes) => say_panes(panes.as_slice(), case),
        Err(refused) => case.no_memory(refused),
    }
}

// An element for each window of the time.
fn add_elements(strategy: &Strategy, elements: &mut List<Element>, case: &mut Case<'_>) {
    let time = case.time();
    let value = read_value(case);
    let mut windows = List::new(case.alloc());
    add_windows(strategy, time, &mut windows, case);
    for window in windows.as_slice() {
        match element_in(case.alloc(), &value, time, *window) {
            Ok(element) => case.keep(elements, element),
            Err(refused) => case.no_memory(refused),
        }
    }
}

fn element_in(alloc: Global, value: &Value, time: Time, span: Span) -> Result<Element, NoMemory> {
    Ok(Element {
        value: value.copy(alloc)?,
        time,
        span,
        pane: PaneTag {
            timing: Timing::Unknown,
            index: 0,
        },
    })
}

fn say_panes(panes: &[Element], case: &mut Case<'_>) {
    for pane in panes {
        case.next_answer();
        say_element(pane, case);
    }
    if panes.is_empty() {
        case.say("none");
    }
}
