//! What a desk's value and its passes' notes have to meet.
use std::collections::LinkedList;

/// What a pass knows of the held value. Contracts alone see one: no value of it is made.
pub struct Note<A> {
    /// The pass's own number, and then those of the passes that were joined into it.
    pub numbers: LinkedList<u64>,
    /// The numbers from 1 to this one are free: each is for a pass that may still be split off.
    pub free: u64,
    /// What the note says beside its numbers.
    pub about: A,
}

/// A value that passes take turns at. All members are for contracts alone.
pub trait Held {
    /// What a note says beside its numbers.
    type About;

    /// What stays as it is for as long as a desk stands.
    type Constant;

    ghost use Rattle.std.specs.Prelude.{◌<◌};
    ghost use Rattle.turn_desk.specs.declared.held.Note.{Note};
    ghost use Rattle.turn_desk.specs.Notes.{IsSound, IsApart, HasSameNumbers, kept_part};
    ghost use Rattle.turn_desk.specs.Notes.{given_part, joined_note};

    /// What the constant and a note say of a value, for one pass.
    ghost fits: { Self → Self.Constant → Note Self.About → Type 0 };

    /// Which changes a pass may make in one turn: from a value and the pass's note to a value and its new note.
    ghost moves: { Self.Constant → Self → Note Self.About → Self → Note Self.About → Type 0 };

    /// What the first pass's note says.
    ghost opening: { Self.About };

    /// What a note says once a free number is split off.
    ghost kept: { Note Self.About → Self.About };

    /// What the note of the pass that is split off says.
    ghost given: { Note Self.About → Self.About };

    /// What the join of two notes says.
    ghost joined: { Note Self.About → Note Self.About → Self.About };

    /// After a move the new value fits the moving pass's new note, which has the same numbers.
    ghost keeps_own: { (c : Self.Constant) (x y : Self) (m n : Note Self.About)
        → IsSound m → fits x c m → moves c x m y n → fits y c n × HasSameNumbers m n };

    /// After a move the new value fits each note that the old one fitted and that shares no number with the moving one.
    ghost keeps_others: { (c : Self.Constant) (x y : Self) (m n other : Note Self.About)
        → IsSound m → IsSound other → IsApart m other → fits x c m
        → moves c x m y n → fits x c other → fits y c other };

    /// A value that fits a note fits both its parts.
    ghost parts_fit: { (c : Self.Constant) (x : Self) (m : Note Self.About) → IsSound m → 0 < m.free
        → fits x c m → fits x c (kept_part (kept m) m) × fits x c (given_part (given m) m) };

    /// A value that fits two notes that share no number fits their join.
    ghost join_fits: { (c : Self.Constant) (x : Self) (m n : Note Self.About)
        → IsSound m → IsSound n → IsApart m n → fits x c m
        → fits x c n → fits x c (joined_note (joined m n) m n) };
}
