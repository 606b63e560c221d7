use crate::steps::Called;
use beam_values::Range;
use case_files::Case;
use offset_tracker::Tracker;

/// The tracker of a range, and the `;` after it.
pub fn read_tracker(case: &mut Case<'_>) -> Tracker {
    let range = case.range();
    case.mark(b';');
    Tracker::new(range)
}

impl Called for Tracker {
    fn call(&mut self, name: &str, case: &mut Case<'_>) {
        match name {
            "claim" => claim(self, case),
            "split" => split(self, case),
            "checkpoint" => say_residual(self.checkpoint(), case),
            "may" => {
                let position = case.number();
                case.say_bool(self.may_claim(position));
            }
            "done" => case.say_bool(self.check_done()),
            "range" => case.say_range(self.range()),
            "attempted" => case.say_some(self.attempted()),
            _ => case.fail("a tracker has no such call"),
        }
    }
}

fn claim(tracker: &mut Tracker, case: &mut Case<'_>) {
    let position = case.number();
    if tracker.may_claim(position) {
        let is_claimed = tracker.try_claim(position);
        case.say_bool(is_claimed);
    } else {
        case.fail("the position may not be claimed");
    }
}

// A split `NUM/DEN`.
fn split(tracker: &mut Tracker, case: &mut Case<'_>) {
    let num = case.number::<u64>();
    case.mark(b'/');
    let den = case.number::<u64>();
    if num <= den && 1 <= den && den <= 1_000_000 {
        let residual = tracker.try_split(num, den);
        say_residual(residual, case);
    } else {
        case.fail("there is no such split");
    }
}

fn say_residual(residual: Option<Range>, case: &mut Case<'_>) {
    match residual {
        Some(range) => case.say_range(range),
        None => case.say("none"),
    }
}
