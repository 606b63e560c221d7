//! What the seats of the table know, and what its slot holds.
ghost use Rattle.std.specs.Prelude.{◌≡◌, IsSome};

use crate::held::Note;
use crate::unseen::Unseen;

/// Where a pass stands. The tickets count from 0 and don't wrap.
pub enum Stage<V> {
    // Its note went into another pass.
    Spent,
    Idle,
    // It drew this ticket.
    Waits(u64),
    // It has the turn of this ticket, and took this value.
    InTurn(u64, V),
}

/// What a seat knows. No value of it is made.
pub struct View<V, A, C> {
    pub note: Note<A>,
    // None where the pass is spent.
    pub constant: Option<C>,
    pub stage: Stage<V>,
}

/// The slot. While a pass has it out it holds no value, and as it comes back it names the pass's new note.
#[derive(Drop)]
pub struct Slot<V, A> {
    pub value: Option<V>,
    pub note: Unseen<Note<A>>,
}

impl<V, A> Slot<V, A> {
    /// The value, which no pass has out.
    pub fn into_value(self) -> V
        requires { IsSome self.value }
        ensures { self.value ≡ Some result }
    {
        let Slot { value, note: _ } = self;
        value.unwrap()
    }

    /// A slot with no value may go.
    pub fn end_vacant(self)
        requires { self.value ≡ None }
    {
        let Slot { value, note: _ } = self;
        match value {
            None => {}
            Some(_) => unreachable!(),
        }
    }
}
