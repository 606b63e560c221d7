use beam_values::{List, Span, Strategy, Time};
use case_files::{Case, read_strategy};
use windowing::{StrategyRefusal, assign, check_strategy};

/// Whether a plan may have the strategy.
pub fn answer_strategy(case: &mut Case<'_>) {
    let strategy = read_strategy(case);
    match check_strategy(&strategy) {
        Ok(()) => case.say("ok"),
        Err(refusal) => say_refusal(refusal, case),
    }
}

fn say_refusal(refusal: StrategyRefusal, case: &mut Case<'_>) {
    case.say("refusal");
    case.say_number(refusal.number());
    case.say(match refusal {
        StrategyRefusal::Size => "size",
        StrategyRefusal::Period => "period",
        StrategyRefusal::TooManyWindows => "too many windows",
    });
}

/// The windows of times, each under its strategy: `STRATEGY TIME; STRATEGY TIME`.
pub fn answer_window(case: &mut Case<'_>) {
    let mut windows = List::new(case.alloc());
    for _ in 0..case.left() {
        let strategy = read_strategy(case);
        let time = case.time();
        add_windows(&strategy, time, &mut windows, case);
        if !case.takes(b';') {
            break;
        }
    }
    for window in windows.as_slice() {
        case.say_span(*window);
    }
    if windows.is_empty() {
        case.say("none");
    }
}

/// Adds the windows of a time under a strategy that a plan may have and that gives windows.
pub fn add_windows(strategy: &Strategy, time: Time, windows: &mut List<Span>, case: &mut Case<'_>) {
    if check_strategy(strategy).is_err() || matches!(strategy, Strategy::Kept) {
        case.fail("the strategy gives no windows");
    } else if let Err(refused) = assign(strategy, time, windows) {
        case.no_memory(refused);
    }
}
