//! Key cells made again of plain data.

ghost use Rattle.std.specs.Prelude.{◌≡◌, [], ◌∷◌, ◌++◌, ◌<◌, false, All, IfOk, OnOk};
ghost use Rattle.stateful_core.specs.Cells.{is_cell_of};
ghost use Rattle.stateful_core.specs.Data.{AreKeysFormed, IsKeyFormed, cell_of_data, cells_of_data};
ghost use Rattle.stateful_core.specs.Data.{timer_holds_of, times_of};
ghost use Rattle.stateful_core.specs.Facts.{AreOnce};
ghost use Rattle.stateful_core.specs.Restoring.{AreRestored};
ghost use Rattle.stateful_core.specs.Seen.{cell_of, cells_of};

use crate::finding::index_key;
use crate::keys::has_numbers;
use crate::trees::{grow, renew_at};
use crate::{KeyData, KeyIndex, NodeTree, Queue, SetTimer, Slot, TimerHolds};
use beam_values::{Boxed, List, NoMemory, RoomyList};
use keyed_state::KeyState;
use std::alloc::Global;
use timer_core::Timers;

/// Cells that are made again, and what leads to them.
#[derive(Debug, Drop)]
pub struct Restored {
    pub slots: Vec<Slot>,
    pub index: KeyIndex,
    pub trees: Vec<NodeTree>,
}

pub fn restore_all(alloc: Global, keys: List<KeyData>) -> Result<Restored, NoMemory>
    requires formed { AreKeysFormed keys }
    requires once { AreOnce (cells_of_data keys) }
    ensures cells { IfOk result (λ restored.
        cells_of restored.slots.items ≡ cells_of_data keys) }
    ensures kept { IfOk result AreRestored }
{
    let mut restored = Restored {
        slots: Vec::new(alloc),
        index: KeyIndex::new(alloc),
        trees: Vec::new(alloc),
    };
    for own in keys.into_vec() {
        restore_one(alloc, &mut restored, own)?;
    }
    Ok(restored)
}

/// One cell more, behind the others.
fn restore_one(alloc: Global, restored: &mut Restored, own: KeyData) -> Result<(), NoMemory>
    requires formed { IsKeyFormed own }
    requires other { All (λ cell. is_cell_of own.node own.key own.span cell ≡ false)
        (cells_of restored.old.slots.items) }
    requires kept { AreRestored restored.old }
    ensures cells { OnOk result (cells_of restored.new.slots.items
        ≡ cells_of restored.old.slots.items ++ cell_of_data own ∷ []) }
    ensures kept { OnOk result (AreRestored restored.new) }
{
    let at = restored.slots.len();
    has_numbers(at, 1)?;
    let key = index_key(alloc, own.node, &own.key, own.span)?;
    restored.index.add(key, at as u32)?;
    grow(alloc, &mut restored.trees, own.node, at)?;
    let slot = slot_of(alloc, own)?;
    restored.slots.push(slot)?;
    renew_at(&mut restored.trees, restored.slots.as_slice(), at);
    Ok(())
}

fn slot_of(alloc: Global, own: KeyData) -> Result<Slot, NoMemory>
    requires { IsKeyFormed own }
    ensures { IfOk result (λ slot. cell_of slot ≡ cell_of_data own) }
{
    let KeyData {
        node,
        key,
        span,
        state,
        timers,
        waiting,
        attempts,
        log,
    } = own;
    Ok(Slot {
        node,
        key,
        span,
        entries: RoomyList::from_list(log),
        state: Boxed::new(alloc, KeyState::restore(alloc, state)?)?,
        timers: Boxed::new(alloc, times_of(timers.as_slice()))?,
        timer_holds: timer_holds_of(timers.as_slice()),
        waiting: Queue::of(alloc, waiting)?,
        live: None,
        attempts,
    })
}

fn times_of(timers: &[SetTimer]) -> Timers
    requires { All (λ set. set.timer.name < 8) timers.now }
    ensures { result ≡ times_of timers.now }
{
    let mut times = Timers::new();
    for set in timers {
        times.set(set.timer.name, set.timer.time);
    }
    times
}

fn timer_holds_of(timers: &[SetTimer]) -> TimerHolds
    requires { All (λ set. set.timer.name < 8) timers.now }
    ensures { result ≡ timer_holds_of timers.now }
{
    let mut holds = TimerHolds::new();
    for set in timers {
        holds.set(set.timer.name, set.hold);
    }
    holds
}
