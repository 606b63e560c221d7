//! What a desk does.
ghost use Rattle.std.specs.Prelude.{◌≡◌, ◌<◌, ◌+◌, IfOk};
ghost use Rattle.turn_desk.specs.declared.held.Note.{Note};
ghost use Rattle.turn_desk.specs.Notes.{IsSound, size_of, opening_note, kept_part, given_part};
ghost use Rattle.turn_desk.specs.Notes.{joined_note};
ghost use Rattle.turn_desk.specs.Plays.{HasDrawn, IsInTurn};
ghost use Rattle.turn_desk.specs.Seen.{constant_of, note_of, turn_note, lent_value, present_value};
ghost use Rattle.turn_desk.specs.Seen.{IsPassOf, IsTurnOf};

use crate::bells::{Bells, Pause};
use crate::change::Change;
use crate::desk::{Desk, Hold, Pass, Place, Turn};
use crate::error::NoMemory;
use crate::held::{Held, Note};
use crate::parking::{Parking, Waits};
use crate::plays::{Cut, Draw, End, Merge, Serve};
use crate::unseen::Unseen;
use crate::view::Slot;
use atomic_table::{Refused, Table};
use std::alloc::Global;
use std::snapshot::Snapshot;
use std::sync::Wait;

// Word 0 counts the tickets, and word 1 is the ticket that is served.
const TICKETS: usize = 0;

const SERVING: usize = 1;

impl<V: Held> Desk<V> {
    /// A desk with this value, and its first pass. The proof of the call picks the constant.
    /// Where there is no memory, the value is dropped.
    pub fn new(alloc: Global, value: V) -> Result<(Desk<V>, Pass<V>), NoMemory>
    where
        V: Drop,
        ghost constant: { V.Constant }
        requires { V.fits value constant (opening_note V.opening) }
        ensures desk { IfOk result (λ r. IsPassOf r.0 r.1) }
        ensures constant { IfOk result (λ r. constant_of r.0 ≡ constant) }
        ensures note { IfOk result (λ r. note_of r.1 ≡ opening_note V.opening) }
    {
        let constant = Unseen::of();
        Desk::new_with(alloc, value, constant)
    }

    /// [`Desk::new`] with a constant that the caller's proof has picked before.
    pub fn new_with(
        alloc: Global,
        value: V,
        constant: Unseen<V::Constant>,
    ) -> Result<(Desk<V>, Pass<V>), NoMemory>
    where
        V: Drop,
        requires { V.fits value constant.value (opening_note V.opening) }
        ensures desk { IfOk result (λ r. IsPassOf r.0 r.1) }
        ensures constant { IfOk result (λ r. constant_of r.0 ≡ constant.value) }
        ensures note { IfOk result (λ r. note_of r.1 ≡ opening_note V.opening) }
    {
        let mut slots = Vec::new(alloc);
        slots.push(Slot {
            value: Some(value),
            note: Unseen::of(),
        })?;
        match Table::new(alloc, &[0, 0], slots, &constant) {
            Ok((table, seat)) => {
                let bells = Bells::new();
                let parking = Parking::new();
                let waits = Waits::first();
                let desk = Desk {
                    table,
                    bells,
                    parking,
                };
                Ok((desk, Pass { seat, waits }))
            }
            Err(Refused { slots: _ }) => Err(NoMemory),
        }
    }

    /// Waits for the pass's turn, which lends the value.
    #[inline(always)]
    pub fn take<R: Wait>(&self, rt: &R, pass: Pass<V>) -> Turn<V>
        requires { IsPassOf self.now pass }
        ensures desk { IsTurnOf self.now result }
        ensures note { turn_note result ≡ note_of pass }
        ensures sound { IsSound (note_of pass) }
        ensures fits { V.fits (lent_value result) (constant_of self.now) (note_of pass) }
        ensures value { present_value result ≡ lent_value result }
    {
        let Pass {
            mut seat,
            mut waits,
        } = pass;
        let ticket = self.table.shared.fetch_add::<Draw>(&mut seat, TICKETS, 1);
        let pause = self.wait(rt, &mut seat, ticket);
        waits.count(ticket, &pause);
        let out = Slot {
            value: None,
            note: Unseen::of(),
        };
        let value = self.table.shared.exchange(&mut seat, 0, out).into_value();
        let lent = Snapshot::of(&value);
        Turn {
            value,
            hold: Hold { lent, seat, waits },
        }
    }

    // Waits until the ticket is served.
    #[inline(always)]
    fn wait<R: Wait>(&self, rt: &R, seat: &mut Place<V>, ticket: u64) -> Pause
        requires desk { seat.old.table_id ≡ self.now.table.shared.table_id }
        requires drawn { HasDrawn ticket seat.old.me }
        ensures desk { seat.new.table_id ≡ seat.old.table_id }
        ensures turn { IsInTurn V.fits seat.old.me seat.new.me }
    {
        let mut pause = Pause::new();
        for _ in rt.forever() {
            let serving = self.table.shared.load::<Serve<V>>(seat, SERVING);
            if serving == ticket {
                break;
            }
            pause.step(rt, &self.bells, ticket, serving);
        }
        pause
    }

    /// Gives the turn back. The pass then has the note that the change names.
    #[inline(always)]
    pub fn give<M: Change<V>>(&self, turn: Turn<V>, by: &M) -> Pass<V>
        requires desk { IsTurnOf self.now turn }
        requires moves { V.moves (constant_of self.now)
            (lent_value turn) (turn_note turn) (present_value turn)
            (M.new_note by.now (lent_value turn) (turn_note turn) (present_value turn)) }
        ensures desk { IsPassOf self.now result }
        ensures note { note_of result
            ≡ M.new_note by.now (lent_value turn) (turn_note turn) (present_value turn) }
    {
        let note = noted(&turn, by);
        let Turn {
            value: present,
            hold,
        } = turn;
        let Hold {
            lent: _,
            mut seat,
            waits,
        } = hold;
        let back = Slot {
            value: Some(present),
            note,
        };
        self.table.shared.exchange(&mut seat, 0, back).end_vacant();
        let ended = self.table.shared.fetch_add::<End>(&mut seat, SERVING, 1);
        let drawn = self.table.shared.peek(TICKETS);
        self.bells.ring_after(ended, drawn);
        Pass { seat, waits }
    }

    /// Splits off a pass, whose number is the greatest free one.
    pub fn split_pass(&self, pass: &mut Pass<V>) -> Pass<V>
        requires desk { IsPassOf self.now pass.old }
        requires free { 0 < (note_of pass.old).free }
        ensures desk { IsPassOf self.now pass.new × IsPassOf self.now result }
        ensures kept { note_of pass.new ≡ kept_part (V.kept (note_of pass.old)) (note_of pass.old) }
        ensures given { note_of result
            ≡ given_part (V.given (note_of pass.old)) (note_of pass.old) }
    {
        let split = self.table.shared.split_seat::<Cut<V>>(&mut pass.seat);
        Pass {
            seat: split,
            waits: self.parking.next_waits(),
        }
    }

    /// Joins another pass into this one.
    pub fn join_pass(&self, pass: &mut Pass<V>, other: Pass<V>)
        requires desk { IsPassOf self.now pass.old × IsPassOf self.now other }
        ensures desk { IsPassOf self.now pass.new }
        ensures note { note_of pass.new ≡ joined_note (V.joined (note_of pass.old) (note_of other))
            (note_of pass.old) (note_of other) }
    {
        let Pass { seat: joined, .. } = other;
        let shared = &self.table.shared;
        shared.join_seat::<Merge<V>>(&mut pass.seat, joined);
    }

    /// Ends the desk, by the pass into which all others were joined, and gives the value back.
    pub fn close(self, pass: Pass<V>) -> V
        requires desk { IsPassOf self pass }
        requires all { size_of (note_of pass) ≡ 4294967296 }
        ensures sound { IsSound (note_of pass) }
        ensures fits { V.fits result (constant_of self) (note_of pass) }
    {
        let Desk { table, .. } = self;
        let Pass { seat, .. } = pass;
        let mut closed = table.close_with(seat);
        let value = closed.take(0).into_value();
        closed.free();
        value
    }
}

// The note that the change names. It has no bytes: the proof of the call says which it is.
fn noted<V: Held, M: Change<V>>(_turn: &Turn<V>, _by: &M) -> Unseen<Note<V::About>>
    ghost note: { Note V.About }
    ensures { result.value ≡ note }
{
    Unseen::of()
}
