use crate::steps::Called;
use beam_values::RoomyList;
use case_files::Case;

impl Called for RoomyList<i64> {
    fn call(&mut self, name: &str, case: &mut Case<'_>) {
        match name {
            "reserve" => {
                if let Err(refused) = self.reserve(case.number()) {
                    case.no_memory(refused);
                }
            }
            "push" => {
                if let Err(refused) = self.push(case.number()) {
                    case.no_memory(refused);
                }
            }
            "insert" => insert(self, case),
            "remove" => remove(self, case),
            "pop" => case.say_some(self.pop()),
            "len" => case.say_number(self.len() as u64),
            "items" => say_items(self, case),
            _ => case.fail("a list has no such call"),
        }
    }
}

fn insert(list: &mut RoomyList<i64>, case: &mut Case<'_>) {
    let at = case.number::<usize>().min(list.len());
    if let Err(refused) = list.insert(at, case.number()) {
        case.no_memory(refused);
    }
}

fn remove(list: &mut RoomyList<i64>, case: &mut Case<'_>) {
    let at = case.number::<usize>();
    if at < list.len() {
        case.say_number(list.remove(at));
    } else {
        case.fail("there is no such item");
    }
}

fn say_items(list: &RoomyList<i64>, case: &mut Case<'_>) {
    for item in list.as_slice() {
        case.say_number(*item);
    }
    if list.is_empty() {
        case.say("none");
    }
}
