use crate::documents::{answer_document, answer_words};
use crate::graphs::answer_graph;
use crate::groups::answer_groups;
use crate::marks::{answer_attempt, answer_seen};
use crate::triggers::{answer_dropped, answer_fire, answer_moment};
use case_files::{Answers, Case, Script};

/// The libraries on plans that answer the cases.
pub struct Plans;

impl Answers for Plans {
    fn answer(&self, case: &mut Case<'_>) {
        match case.word() {
            "fire" => answer_fire(case),
            "moment" => answer_moment(case),
            "dropped" => answer_dropped(case),
            "seen" => answer_seen(case),
            "attempt" => answer_attempt(case),
            "document" => answer_document(case),
            "words" => answer_words(case),
            _ => case.fail("there is no such kind"),
        }
    }

    fn answer_block<'a>(&self, script: &mut Script<'a>, case: &mut Case<'a>) {
        match case.word() {
            "graph" => answer_graph(script, case),
            "groups" => answer_groups(script, case),
            _ => case.fail("a line is KIND INPUT => EXPECTED"),
        }
    }
}
