//! Strategies, triggers, estimators and marks, as cases write them.

use crate::case::Case;
use beam_values::{Estimator, List, Mark, Mode, Strategy, Trigger};

/// `global`, `fixed SIZE`, `sliding SIZE PERIOD`, `sessions GAP` or `kept`.
pub fn read_strategy(case: &mut Case<'_>) -> Strategy {
    match case.word() {
        "global" => Strategy::Global,
        "fixed" => Strategy::Fixed {
            size: case.number(),
        },
        "sliding" => Strategy::Sliding {
            size: case.number(),
            period: case.number(),
        },
        "sessions" => Strategy::Sessions { gap: case.number() },
        "kept" => Strategy::Kept,
        _ => {
            case.fail("there is no such strategy");
            Strategy::Kept
        }
    }
}

/// A strategy in the form in which it is read.
pub fn say_strategy(strategy: &Strategy, case: &mut Case<'_>) {
    match *strategy {
        Strategy::Global => case.say("global"),
        Strategy::Fixed { size } => {
            case.say("fixed");
            case.say_number(size);
        }
        Strategy::Sliding { size, period } => {
            case.say("sliding");
            case.say_number(size);
            case.say_number(period);
        }
        Strategy::Sessions { gap } => {
            case.say("sessions");
            case.say_number(gap);
        }
        Strategy::Kept => case.say("kept"),
    }
}

/// `none`, `monotonic`, `lag N` or `declared`.
pub fn read_estimator(case: &mut Case<'_>) -> Estimator {
    match case.word() {
        "none" => Estimator::None,
        "monotonic" => Estimator::Monotonic,
        "declared" => Estimator::Declared,
        "lag" => Estimator::Lag(case.number()),
        _ => {
            case.fail("there is no such estimator");
            Estimator::None
        }
    }
}

/// `default`, or what differs from it: `early N`, `late N`, `lateness N`, `accumulating`.
pub fn read_trigger(case: &mut Case<'_>) -> Trigger {
    let mut trigger = Trigger {
        early: None,
        late: 1,
        lateness: 0,
        mode: Mode::Discarding,
        early_bars: List::new(case.alloc()),
        late_bars: List::new(case.alloc()),
    };
    for _ in 0..case.left() {
        if case.is_over() {
            break;
        }
        match case.word() {
            "default" => {}
            "early" => trigger.early = Some(case.number()),
            "late" => trigger.late = case.number(),
            "lateness" => trigger.lateness = case.number(),
            "accumulating" => trigger.mode = Mode::Accumulating,
            _ => case.fail("a trigger has early, late, lateness and accumulating"),
        }
    }
    trigger
}

/// A mark: a time or `final`.
pub fn read_mark(case: &mut Case<'_>) -> Mark {
    if case.shows(b'f') {
        if case.word() != "final" {
            case.fail("a mark is a time or final");
        }
        return Mark::FINAL;
    }
    Mark::at(case.time())
}

/// All marks that are left.
pub fn read_marks(case: &mut Case<'_>) -> List<Mark> {
    let mut marks = List::new(case.alloc());
    for _ in 0..case.left() {
        if case.is_over() {
            break;
        }
        let mark = read_mark(case);
        case.keep(&mut marks, mark);
    }
    marks
}

/// Its milliseconds, or `final`.
pub fn say_mark(mark: Mark, case: &mut Case<'_>) {
    if mark.is_final() {
        return case.say("final");
    }
    case.say_number(mark.ms());
}
