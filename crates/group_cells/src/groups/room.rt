//! The items of a list move behind those of another, and come back without memory: the list keeps its
//! room for them.

ghost use Rattle.std.specs.Prelude.{◌≡◌, ◌++◌, ◌-◌, ◌<◌, ◌≤◌, ◌+◌, length, reverse, take, drop};
ghost use Rattle.std.specs.Prelude.{vec_capacity, vec_len, IfErr, IfOk, OnOk, OnErr};

use beam_values::Entry;

/// The room of a list whose entries were moved.
#[derive(Debug, Drop)]
pub struct Room {
    /// How many they are.
    pub count: usize,
    list: Vec<Entry>,
    ghost empty: { vec_len list ≡ 0 },
    ghost fits: { count ≤ vec_capacity list },
}

/// Moves entries behind others. After a refusal they are answered.
pub fn move_behind(entries: &mut Vec<Entry>, more: Vec<Entry>) -> Result<Room, Vec<Entry>>
    ensures ok { OnOk result (entries.new.items ≡ entries.old.items ++ more.items) }
    ensures count { IfOk result (λ room. room.count ≡ length more.items) }
    ensures err { OnErr result (entries.new.items ≡ entries.old.items) }
    ensures answered { IfErr result (λ back. back.items ≡ more.items) }
{
    let count = more.len();
    let mut list = more;
    match entries.append(&mut list) {
        Ok(()) => Ok(Room { count, list }),
        Err(_) => Err(list),
    }
}

impl Room {
    /// Takes so many of the last entries as were moved. Takes no memory.
    pub fn take_back(self, entries: &mut Vec<Entry>) -> Vec<Entry>
        ensures kept { entries.new.items
            ≡ take (length entries.old.items - self.count) entries.old.items }
        ensures back { result.items
            ≡ drop (length entries.old.items - self.count) entries.old.items }
    {
        let Room { count, mut list } = self;
        for _ in 0..count {
            move_last(entries, &mut list);
        }
        list.reverse();
        list
    }
}

fn move_last(from: &mut Vec<Entry>, to: &mut Vec<Entry>)
    requires { vec_len to.old < vec_capacity to.old }
    ensures whole { from.new.items ++ reverse to.new.items
        ≡ from.old.items ++ reverse to.old.items }
    ensures fewer { length from.new.items ≡ length from.old.items - 1 }
    ensures more { vec_len to.new ≤ vec_len to.old + 1 }
    ensures room { vec_capacity to.new ≡ vec_capacity to.old }
{
    if let Some(entry) = from.pop() {
        to.push_reserved(entry);
    }
}
