use crate::coders::{answer_coder, answer_element, answer_order, answer_write};
use crate::functions::answer_function;
use crate::grouping::answer_grouped;
use crate::keyed::answer_stateful;
use crate::lines::{answer_key, answer_line, answer_time, answer_timed};
use crate::outcomes::{answer_outcome, answer_row, answer_summary, answer_text};
use crate::ports::{read_sink, read_store};
use crate::sizes::answer_size;
use crate::sources::{answer_emission, answer_lines, answer_next};
use crate::steps::call_all;
use crate::trackers::read_tracker;
use crate::windows::{answer_strategy, answer_window};
use beam_values::RoomyList;
use case_files::{Answers, Case, Script};
use keyed_state::KeyState;
use session_merge::SessionSet;
use split_core::Pieces;
use timer_core::Timers;
use watermarks::Holds;

/// The libraries that answer the cases.
pub struct Libraries;

impl Answers for Libraries {
    fn answer(&self, case: &mut Case<'_>) {
        match case.word() {
            "coder" => answer_coder(case),
            "element" => answer_element(case),
            "write" => answer_write(case),
            "order" => answer_order(case),
            "window" => answer_window(case),
            "strategy" => answer_strategy(case),
            "line" => answer_line(case),
            "timed" => answer_timed(case),
            "time" => answer_time(case),
            "key" => answer_key(case),
            "text" => answer_text(case),
            "row" => answer_row(case),
            "lines" => answer_lines(case),
            "emission" => answer_emission(case),
            "next" => answer_next(case),
            "grouped" => answer_grouped(case),
            "size" => answer_size(case),
            "function" => answer_function(case),
            "stateful" => answer_stateful(case),
            kind => answer_calls(kind, case),
        }
    }

    fn answer_block<'a>(&self, script: &mut Script<'a>, case: &mut Case<'a>) {
        match case.word() {
            "outcome" => answer_outcome(script, case),
            "summary" => answer_summary(script, case),
            _ => case.fail("a line is KIND INPUT => EXPECTED"),
        }
    }
}

// Answers a case of calls on one value.
fn answer_calls(kind: &str, case: &mut Case<'_>) {
    match kind {
        "tracker" => call_all(read_tracker(case), case),
        "pieces" => call_all(Pieces::new(case.alloc()), case),
        "timers" => call_all(Timers::new(), case),
        "state" => call_all(KeyState::new(case.alloc()), case),
        "list" => call_all(RoomyList::<i64>::new(case.alloc()), case),
        "store" => call_all(read_store(case), case),
        "sink" => call_all(read_sink(case), case),
        "holds" => call_all(Holds::new(case.alloc()), case),
        "sessions" => call_all(SessionSet::new(case.alloc()), case),
        _ => case.fail("there is no such kind"),
    }
}
