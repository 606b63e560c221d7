ghost use Rattle.std.specs.Prelude.{◌<◌};

use crate::steps::Called;
use beam_values::{List, Value};
use case_files::{Case, read_value};
use keyed_state::KeyState;

impl Called for KeyState {
    fn call(&mut self, name: &str, case: &mut Case<'_>) {
        match name {
            "copy" => copy(self, case),
            "set_number" => {
                let cell = case.name();
                let number = case.number();
                self.set_number(cell, number);
            }
            "set_bytes" => set_bytes(self, case),
            "add" => add(self, case),
            "clear" => {
                let cell = case.name();
                self.clear(cell);
            }
            "number" => {
                let cell = case.name();
                case.say_some(self.number(cell));
            }
            "bytes" => say_bytes(self, case),
            "bag" => say_bag(self, case),
            _ => case.fail("a state has no such call"),
        }
    }
}

fn copy(state: &mut KeyState, case: &mut Case<'_>) {
    match state.copy() {
        Ok(copy) => *state = copy,
        Err(refused) => case.no_memory(refused),
    }
}

fn set_bytes(state: &mut KeyState, case: &mut Case<'_>) {
    let cell = case.name();
    let bytes = case.text();
    if let Err(refused) = state.set_bytes(cell, bytes.as_slice()) {
        case.no_memory(refused);
    }
}

fn add(state: &mut KeyState, case: &mut Case<'_>) {
    let cell = case.name();
    let value = read_value(case);
    if let Err(refused) = state.add(cell, value) {
        case.no_memory(refused);
    }
}

fn say_bytes(state: &KeyState, case: &mut Case<'_>) {
    let cell = case.name();
    match state.bytes(cell) {
        Some(bytes) => case.say_text(bytes),
        None => case.say("none"),
    }
}

fn say_bag(state: &KeyState, case: &mut Case<'_>) {
    let cell = case.name();
    match state.bag(cell) {
        Ok(Some(values)) => say_values(&values, case),
        Ok(None) => case.say("none"),
        Err(refused) => case.no_memory(refused),
    }
}

fn say_values(values: &List<Value>, case: &mut Case<'_>) {
    for value in values.as_slice() {
        case.say_value(value);
    }
}
