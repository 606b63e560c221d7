//! What a pass did in its turn, which proofs alone see.
ghost use Rattle.std.specs.Prelude.{◌≡◌, [], List};
ghost use Rattle.worker_table.specs.Notes.{Owner};

use crate::act::Act;
use crate::held::{OwnerList, Shared};
use std::snapshot::Snapshot;
use turn_desk::{Change, Unseen};

/// An act and its answer.
#[derive(Drop)]
pub struct Did<A: Act> {
    pub act: Snapshot<A>,
    pub answer: Snapshot<A::Answer>,
}

impl<A: Act> Change<Shared> for Did<A> {
    ghost use Rattle.worker_table.specs.Moves.{note_after};

    ghost new_note = { λ by lent note present.
        note_after (A.deed by.act.value by.answer.value) lent.book.value note present.book.value };
}

/// The owners of a book without a slot.
pub fn nobody() -> Unseen<OwnerList>
    ensures { result.value ≡ [] }
{
    Unseen::of()
}

/// A list of owners, which the proof of the call picks from these values.
pub fn owned_by<T, A, B>(_of: &T, _by: &A, _with: &B) -> Unseen<OwnerList>
    ghost owners: { List Owner }
    ensures { result.value ≡ owners }
{
    Unseen::of()
}
