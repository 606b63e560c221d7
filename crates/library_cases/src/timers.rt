use crate::steps::Called;
use beam_values::{Mark, Time};
use case_files::Case;
use timer_core::Timers;

impl Called for Timers {
    fn call(&mut self, name: &str, case: &mut Case<'_>) {
        match name {
            "set" => {
                let timer = case.name();
                let time = case.time();
                self.set(timer, time);
            }
            "clear" => {
                let timer = case.name();
                self.clear(timer);
            }
            "time" => {
                let timer = case.name();
                say_time(self.time(timer), case);
            }
            "least" => say_time(self.least(), case),
            "due" => {
                let time = case.time();
                say_due(self, Mark::at(time), case);
            }
            "final" => say_due(self, Mark::FINAL, case),
            _ => case.fail("timers have no such call"),
        }
    }
}

fn say_due(timers: &Timers, mark: Mark, case: &mut Case<'_>) {
    match timers.first_due(mark) {
        Some(timer) => {
            case.say_number(timer.name);
            case.say("at");
            case.say_number(timer.time.ms());
        }
        None => case.say("none"),
    }
}

fn say_time(time: Option<Time>, case: &mut Case<'_>) {
    match time {
        Some(time) => case.say_number(time.ms()),
        None => case.say("none"),
    }
}
