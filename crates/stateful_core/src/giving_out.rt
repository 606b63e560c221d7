//! Key cells given out as plain data.

ghost use Rattle.std.specs.Prelude.{◌≡◌, [], ◌∷◌, ◌++◌, ◌<◌, map, IfOk, OnOk};
ghost use Rattle.beam_values.specs.States.{timer_of};
ghost use Rattle.stateful_core.specs.Data.{key_data_of, timers_from};
ghost use Rattle.stateful_core.specs.Restoring.{one_timer};
ghost use Rattle.stateful_core.specs.Seen.{cell_of, cells_of};

use crate::{KeyData, SetTimer, Slot, TimerHolds};
use beam_values::{Duplicate, List, LogEntry, Mark, NoMemory, Time, Timer};
use std::alloc::Global;
use timer_core::Timers;

/// How many timers a cell has; they are named from 0.
const TIMERS: u8 = 8;

pub fn all_data(alloc: Global, slots: &[Slot]) -> Result<List<KeyData>, NoMemory>
    ensures { IfOk result (λ keys. keys ≡ map key_data_of (cells_of slots.now)) }
{
    let mut keys = List::from_vec(Vec::with_capacity(alloc, slots.len())?);
    for slot in slots {
        keys.push(data_of(alloc, slot)?)?;
    }
    Ok(keys)
}

fn data_of(alloc: Global, slot: &Slot) -> Result<KeyData, NoMemory>
    ensures { IfOk result (λ given. given ≡ key_data_of (cell_of slot.now)) }
{
    Ok(KeyData {
        node: slot.node,
        key: slot.key.copy(alloc)?,
        span: slot.span,
        state: slot.state.get().cells()?,
        timers: set_timers(alloc, slot.timers.get(), &slot.timer_holds)?,
        waiting: slot.waiting.copies(alloc)?,
        attempts: slot.attempts,
        log: entries(alloc, slot.entries.as_slice())?,
    })
}

fn set_timers(
    alloc: Global,
    timers: &Timers,
    holds: &TimerHolds,
) -> Result<List<SetTimer>, NoMemory>
    ensures { IfOk result (λ set. set ≡ timers_from 0 timers.now holds.now) }
{
    let mut set = List::new(alloc);
    for name in 0..TIMERS {
        note_timer(&mut set, name, timers.time(name), holds.get(name))?;
    }
    Ok(set)
}

/// A timer is noted, where it is set.
fn note_timer(
    set: &mut List<SetTimer>,
    name: u8,
    time: Option<Time>,
    hold: Option<Mark>,
) -> Result<(), NoMemory>
    ensures { OnOk result (set.new ≡ set.old ++ one_timer name time hold) }
{
    let Some(time) = time else {
        return Ok(());
    };
    let Some(hold) = hold else {
        return Ok(());
    };
    let timer = Timer { name, time };
    set.push(SetTimer { timer, hold })
}

fn entries(alloc: Global, log: &[LogEntry]) -> Result<List<LogEntry>, NoMemory>
    ensures { IfOk result (λ entries. entries ≡ log.now) }
{
    let mut entries = List::from_vec(Vec::with_capacity(alloc, log.len())?);
    for entry in log {
        entries.push(entry.duplicate(alloc)?)?;
    }
    Ok(entries)
}
