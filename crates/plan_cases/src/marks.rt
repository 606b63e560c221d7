ghost use Rattle.std.specs.Prelude.{◌≡◌, true};
ghost use Rattle.beam_values.specs.Checked.{is_estimator_allowed};

use beam_values::{Estimator, Time};
use case_files::{Case, read_estimator};
use retry_core::{Next, next_attempt};
use watermarks::{mark_of, observe};
use windowing::GREATEST_LENGTH;

/// What an estimator has seen after a position, and its mark then: `ESTIMATOR; SEEN; TIME|none;
/// DECLARED|none`.
pub fn answer_seen(case: &mut Case<'_>) {
    let estimator = within_limits(read_estimator(case));
    case.mark(b';');
    let seen = case.time();
    case.mark(b';');
    let time = read_time(case);
    case.mark(b';');
    let declared = read_time(case);
    let seen = observe(&estimator, seen, time, declared);
    case.say_number(seen.ms());
    case.say_number(mark_of(&estimator, seen).ms());
}

fn read_time(case: &mut Case<'_>) -> Option<Time> {
    if case.shows(b'n') {
        if case.word() != "none" {
            case.fail("a time is a number or none");
        }
        return None;
    }
    Some(case.time())
}

// A lag is cut to its limits.
fn within_limits(estimator: Estimator) -> Estimator
    ensures { is_estimator_allowed result ≡ true }
{
    match estimator {
        Estimator::Lag(lag) => Estimator::Lag(lag.clamp(0, GREATEST_LENGTH)),
        estimator => estimator,
    }
}

/// Whether a job is tried again: `ATTEMPTS LIMIT`.
pub fn answer_attempt(case: &mut Case<'_>) {
    let attempts = case.number::<u32>();
    let limit = case.number::<u32>();
    if attempts >= limit {
        return case.fail("the attempts are below the limit");
    }
    match next_attempt(attempts, limit) {
        Next::Spent => case.say("spent"),
        Next::Retry(attempts) => {
            case.say("retry");
            case.say_number(attempts);
        }
    }
}
