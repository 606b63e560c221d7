use crate::steps::Called;
use case_files::{Case, read_mark, say_mark};
use watermarks::Holds;

impl Called for Holds {
    fn call(&mut self, name: &str, case: &mut Case<'_>) {
        match name {
            "keep_room" => {
                let places = case.number();
                if let Err(refused) = self.keep_room(places) {
                    case.no_memory(refused);
                }
            }
            "add" => {
                let mark = read_mark(case);
                if let Err(refused) = self.add(mark) {
                    case.no_memory(refused);
                }
            }
            "remove_least" => remove_least(self, case),
            "least" => match self.least() {
                Some(least) => say_mark(least, case),
                None => case.say("none"),
            },
            "least_or_final" => say_mark(self.least_or_final(), case),
            _ => case.fail("holds have no such call"),
        }
    }
}

fn remove_least(holds: &mut Holds, case: &mut Case<'_>) {
    match holds.least() {
        Some(least) => holds.remove(least),
        None => case.fail("nothing is held"),
    }
}
