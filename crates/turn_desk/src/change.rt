//! What a call does to the value in its turn. The language has a trait `Move`, so this one has another name.
use crate::held::{Held, Note};

/// A kind of change, which a call picks as it gives its turn back. The value of this type has what the change depends on.
pub trait Change<V: Held> {
    ghost use Rattle.turn_desk.specs.declared.held.Note.{Note};

    /// The pass's new note, from this value, the value as it was lent, the pass's note and the present value.
    ghost new_note: { Self → V → Note V.About → V → Note V.About };
}
