//! The rule of the table, and what each kind of step tells.
ghost use Rattle.std.specs.Prelude.{◌≡◌, [], Some, None};
ghost use Rattle.turn_desk.specs.declared.view.Stage.TheVariants.{Spent, Idle};
ghost use Rattle.turn_desk.specs.Notes.{opening_note, kept_part, given_part, joined_note};
ghost use Rattle.turn_desk.specs.Rule.{Turns, view_at};
ghost use Rattle.turn_desk.specs.Plays.{Draws, Serves, Ends};

use crate::held::Held;
use crate::unseen::Unseen;
use crate::view::{Slot, View};
use atomic_table::{Join, Play, Split, TableRule};
use std::marker::PhantomData;

/// The rule of the table under a desk. It has no bytes.
pub struct Order<V> {
    of: PhantomData<V>,
}

impl<V: Held> TableRule<Slot<V, V::About>, View<V, V::About, V::Constant>, Unseen<V::Constant>>
    for Order<V> {
    ghost holds = { λ key s. Turns V.fits key.value s };

    ghost first = { λ key. view_at (opening_note V.opening) (Some key.value) Idle };
}

pub(crate) struct Draw;

impl<V, A, C> Play<Slot<V, A>, View<V, A, C>> for Draw {
    ghost then = { Draws };
}

pub(crate) struct Serve<V> {
    of: PhantomData<V>,
}

impl<V: Held> Play<Slot<V, V::About>, View<V, V::About, V::Constant>> for Serve<V> {
    ghost then = { Serves V.fits };
}

pub(crate) struct End;

impl<V, A, C> Play<Slot<V, A>, View<V, A, C>> for End {
    ghost then = { Ends };
}

pub(crate) struct Cut<V> {
    of: PhantomData<V>,
}

impl<V: Held> Split<View<V, V::About, V::Constant>> for Cut<V> {
    ghost left = { λ v. view_at (kept_part (V.kept v.note) v.note) v.constant v.stage };

    ghost right = { λ v. view_at (given_part (V.given v.note) v.note) v.constant Idle };
}

pub(crate) struct Merge<V> {
    of: PhantomData<V>,
}

impl<V: Held> Join<View<V, V::About, V::Constant>> for Merge<V> {
    ghost both = { λ v w.
        view_at (joined_note (V.joined v.note w.note) v.note w.note) v.constant v.stage };

    ghost spent = { view_at (opening_note V.opening) None Spent };
}
