//! The desk, its passes and its turns.
ghost use Rattle.std.specs.Prelude.{◌≡◌, false, [], ◌∷◌, map};
ghost use Rattle.std.specs.Option.{is_some};
ghost use Rattle.turn_desk.specs.Standing.{IsIdle, IsIdle-prop, HasTaken, HasTaken-prop};

use crate::bells::Bells;
use crate::held::Held;
use crate::parking::{Parking, Waits};
use crate::plays::Order;
use crate::unseen::Unseen;
use crate::view::{Slot, View};
use atomic_table::{Seat, Table};
use std::alloc::Global;
use std::snapshot::Snapshot;

pub(crate) type Place<V> = Seat<
    Slot<V, <V as Held>::About>,
    View<V, <V as Held>::About, <V as Held>::Constant>,
>;

/// One value that passes take turns at.
#[derive(Drop)]
pub struct Desk<V: Held> {
    pub(crate) table: Table<
        Slot<V, V::About>,
        View<V, V::About, V::Constant>,
        Unseen<V::Constant>,
        Order<V>,
        Global,
    >,
    pub(crate) bells: Bells,
    pub(crate) parking: Parking,
    ghost counts: { (table.shared.table_id.words ≡ 2) × (table.shared.table_id.slots ≡ 1) },
}

/// The right to take turns, with a note of what is known of the value.
/// A pass that is dropped keeps its numbers, so its desk can't be closed.
#[derive(Drop)]
pub struct Pass<V: Held> {
    pub(crate) seat: Place<V>,
    pub(crate) waits: Waits,
    ghost idle: { IsIdle seat.me.0.stage } by { IsIdle-prop seat.me.0.stage },
    ghost empty: { seat.me.1 ≡ [] },
}

/// The value for the length of one turn. It has to be given back.
pub struct Turn<V: Held> {
    pub(crate) value: V,
    pub(crate) hold: Hold<V>,
}

// The seat of a pass in turn, which has the slot out, and the value as it was there.
pub(crate) struct Hold<V: Held> {
    pub(crate) lent: Snapshot<V>,
    pub(crate) seat: Place<V>,
    pub(crate) waits: Waits,
    ghost taken: { HasTaken lent.value seat.me.0.stage } by { HasTaken-prop V.code
        lent.value seat.me.0.stage },
    ghost out: { map (λ k. k.0) seat.me.1 ≡ 0 ∷ [] },
    ghost vacant: { map (λ k. is_some k.1.value) seat.me.1 ≡ false ∷ [] },
}
