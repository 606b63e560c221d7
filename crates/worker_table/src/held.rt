//! The book as a desk holds it.
use book_core::Book;
use std::marker::Model;
use turn_desk::{Held, Unseen};

/// The owner of each slot. No value of it is made.
pub struct OwnerList {
    place: u8,
}

impl Model for OwnerList {
    ghost use Rattle.std.specs.Prelude.{List, []};
    ghost use Rattle.worker_table.specs.Notes.{Owner};

    ghost Value = { List Owner };

    ghost view = { λ _. [] };
}

/// What a note says of each of its passes. No value of it is made.
pub struct Entries {
    place: u8,
}

impl Model for Entries {
    ghost use Rattle.std.specs.Prelude.{List, []};
    ghost use Rattle.std.specs.Coded.{codes};
    ghost use Rattle.beam_values.specs.contracts.value.Value as value;
    ghost use Rattle.worker_table.specs.Notes.{Entry};

    ghost Value = { List Entry };

    ghost coded = { Prim.hlevel (codes, value.the_row.coded) };

    ghost view = { λ _. [] };
}

/// What is known outside the book, and what it was opened with. No value of it is made.
pub struct TableSetting {
    place: u8,
}

impl Model for TableSetting {
    ghost use Rattle.std.specs.Coded.{codes};
    ghost use Rattle.beam_values.specs.contracts.value.Value as value;
    ghost use Rattle.known_jobs.specs.Jobs.{Setting};
    ghost use Rattle.worker_table.specs.Notes.{no_setting};

    ghost Value = { Setting };

    ghost coded = { Prim.hlevel (codes, value.the_row.coded) };

    ghost view = { λ _. no_setting };
}

/// The book, behind a pointer, so that a turn moves a pointer alone; and which pass owns each of its slots.
#[derive(Drop)]
pub struct Shared {
    pub(crate) book: Box<Book>,
    pub(crate) owners: Unseen<OwnerList>,
}

impl Held for Shared {
    type About = Entries;

    type Constant = TableSetting;

    ghost use Rattle.std.specs.Prelude.{[], ◌∷◌, ◌++◌};
    ghost use Rattle.worker_table.specs.Fits.{Fits};
    ghost use Rattle.worker_table.specs.Laws.{mover_fits, others_fit, parts_fit as split_fits};
    ghost use Rattle.worker_table.specs.Laws.{join_fits as joined_fits};
    ghost use Rattle.worker_table.specs.Moves.{Moves};
    ghost use Rattle.worker_table.specs.Notes.{fresh};

    ghost fits = { λ x c n. Fits c x.book.value x.owners.value n };

    ghost moves = { λ c x m y n.
        Moves c.known x.book.value x.owners.value m y.book.value y.owners.value n };

    ghost opening = { fresh ∷ [] };

    ghost kept = { λ m. m.about };

    ghost given = { λ m. fresh ∷ [] };

    ghost joined = { λ m n. m.about ++ n.about };

    ghost keeps_own = { λ c x y m n.
        mover_fits c x.book.value y.book.value x.owners.value y.owners.value m n };

    ghost keeps_others = { λ c x y m n other sound also apart fit move theirs.
        others_fit c x.book.value y.book.value x.owners.value y.owners.value m n sound fit move
        other apart theirs };

    ghost parts_fit = { λ c x m. split_fits c x.book.value x.owners.value m };

    ghost join_fits = { λ c x m n. joined_fits c x.book.value x.owners.value m n };
}
