use beam_values::Trigger;
use case_files::{Case, read_mark, read_trigger};
use pane_triggers::{Fire, fire, is_dropped, next_mark};

// What a cell is fired by, and what it is.
struct Watched {
    trigger: Trigger,
    end: i64,
    on_time: bool,
    unseen: u64,
}

/// Which pane a cell fires: `TRIGGER; END fired|unfired UNSEEN; MARK`.
pub fn answer_fire(case: &mut Case<'_>) {
    let watched = read_watched(case);
    case.mark(b';');
    let mark = read_mark(case);
    let Watched {
        trigger,
        end,
        on_time,
        unseen,
    } = watched;
    case.say(match fire(&trigger, end, mark, on_time, unseen) {
        Fire::Nothing => "nothing",
        Fire::Early => "early",
        Fire::OnTime => "on time",
        Fire::Late => "late",
    });
}

/// From which mark on a cell fires: `TRIGGER; END fired|unfired UNSEEN`.
pub fn answer_moment(case: &mut Case<'_>) {
    let Watched {
        trigger,
        end,
        on_time,
        unseen,
    } = read_watched(case);
    case.say_some(next_mark(&trigger, end, on_time, unseen));
}

/// Whether an element comes too late: `TRIGGER; END; MARK`.
pub fn answer_dropped(case: &mut Case<'_>) {
    let trigger = read_trigger(case);
    case.mark(b';');
    let end = case.number();
    case.mark(b';');
    let mark = read_mark(case);
    case.say_bool(is_dropped(&trigger, end, mark));
}

fn read_watched(case: &mut Case<'_>) -> Watched {
    let trigger = read_trigger(case);
    case.mark(b';');
    let end = case.number();
    let on_time = match case.word() {
        "fired" => true,
        "unfired" => false,
        _ => {
            case.fail("an on-time pane is fired or unfired");
            false
        }
    };
    let unseen = case.number();
    Watched {
        trigger,
        end,
        on_time,
        unseen,
    }
}
