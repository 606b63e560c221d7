ghost use Rattle.std.specs.Prelude.{◌≡◌, ◌<◌, true};
ghost use Rattle.beam_values.specs.Checked.{is_state_allowed};

use crate::functions::{say_faults, say_outputs};
use crate::steps::Called;
use beam_values::{Args, List, LogInput, Span, StateKind, Timer, Value};
use case_files::{Case, read_element, read_state, read_value};
use dofn_library::{StateWork, Strict, work};
use dofn_traits::StatefulFn;
use keyed_state::KeyState;
use timer_core::Timers;
use windowing::GREATEST_LENGTH;

// A function with state, and the state and the timers of one key and window.
#[derive(Drop)]
struct KeyCell<W> {
    object: Strict<W>,
    key: Value,
    span: Span,
    state: KeyState,
    timers: Timers,
}

/// What a function with state gives and leaves, call after call, and how many faults it counted:
/// `FUNCTION ARGUMENT KEY WINDOW; CALL; CALL`.
pub fn answer_stateful(case: &mut Case<'_>) {
    match read_state(case) {
        StateKind::Dedupe => call_each::<work::Dedupe>(&Args::Nothing, case),
        StateKind::RunningSum => call_each::<work::RunningSum>(&Args::Nothing, case),
        StateKind::BatchUntil => {
            let count = case.number::<i64>().clamp(1, 1_000_000);
            call_each::<work::BatchUntil>(&Args::Number(count), case);
        }
        StateKind::LatestThenEmit => {
            let delay = case.number::<i64>().clamp(0, GREATEST_LENGTH);
            call_each::<work::LatestThenEmit>(&Args::Number(delay), case);
        }
    }
}

fn call_each<W: StateWork + Send + Drop>(args: &Args, case: &mut Case<'_>)
    requires { is_state_allowed W.work args.now ≡ true }
{
    let mut cell = KeyCell {
        object: Strict::<W>::new(case.alloc()),
        key: read_value(case),
        span: case.span(),
        state: KeyState::new(case.alloc()),
        timers: Timers::new(),
    };
    for _ in 0..case.left() {
        if !case.takes(b';') {
            break;
        }
        take_step(&mut cell, args, case);
    }
    say_faults(cell.object.faults(), case);
}

// `element ELEMENT`, `timer NAME TIME`, or what was there before: `set NAME TIME` of the timers, or a change of the state.
fn take_step<W: StateWork + Send + Drop>(cell: &mut KeyCell<W>, args: &Args, case: &mut Case<'_>)
    requires { is_state_allowed W.work args.now ≡ true }
{
    match case.word() {
        "element" => {
            let e = read_element(case);
            call(cell, args, &LogInput::Arrived(e), case);
        }
        "timer" => {
            let timer = Timer {
                name: case.name(),
                time: case.time(),
            };
            call(cell, args, &LogInput::Fired(timer), case);
        }
        "set" => cell.timers.call("set", case),
        name => cell.state.call(name, case),
    }
}

fn call<W: StateWork + Send + Drop>(
    cell: &mut KeyCell<W>,
    args: &Args,
    input: &LogInput,
    case: &mut Case<'_>,
)
    requires { is_state_allowed W.work args.now ≡ true }
{
    let mut out = List::new(case.alloc());
    let answer = cell.object.call(
        args,
        &cell.key,
        cell.span,
        input,
        &mut cell.state,
        &mut cell.timers,
        &mut out,
    );
    let is_ok = answer.is_ok();
    say_outputs(answer, out.as_slice(), case);
    if is_ok {
        say_kept(&cell.state, &cell.timers, case);
    }
}

// The cells and the timers that are set.
fn say_kept(state: &KeyState, timers: &Timers, case: &mut Case<'_>) {
    for name in 0..8 {
        say_cell(state, name, case);
    }
    for name in 0..8 {
        if let Some(time) = timers.time(name) {
            say_part("timer", name, case);
            case.say_number(time.ms());
        }
    }
}

fn say_cell(state: &KeyState, name: u8, case: &mut Case<'_>)
    requires { name < 8 }
{
    if let Some(number) = state.number(name) {
        say_part("number", name, case);
        case.say_number(number);
    }
    match state.bag(name) {
        Ok(Some(values)) => {
            say_part("bag", name, case);
            for value in values.as_slice() {
                case.say_value(value);
            }
        }
        Ok(None) => {}
        Err(refused) => case.no_memory(refused),
    }
    if let Some(bytes) = state.bytes(name) {
        say_part("bytes", name, case);
        case.say_text(bytes);
    }
}

fn say_part(kind: &str, name: u8, case: &mut Case<'_>) {
    case.say("|");
    case.say(kind);
    case.say_number(name);
}
