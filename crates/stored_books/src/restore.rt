//! A book from data.

ghost use Rattle.std.specs.Prelude.{◌≡◌, IfErr, IfOk, OnOk};
ghost use Rattle.book_core.specs.Stored.{book_of, IsSaneData};

use crate::sane::is_sane_data;
use beam_values::NoMemory;
use book_core::{Book, BookData};
use pipeline_graph::Graph;
use std::alloc::Global;
use std::error::Error;
use std::fmt;

/// Why no book was made of data.
#[derive(Clone, Copy, Debug, PartialEq, Eq)]
pub enum RestoreRefusal {
    /// The data stands for no sane book of the plan, or something in it would be lost there.
    Sane,
    NoMemory,
}

impl fmt::Display for RestoreRefusal {
    ghost use Rattle.std.specs.Prelude.{Some};
    ghost use Rattle.stored_books.specs.Messages.{restore_message};

    ghost output = { λ refusal. Some (restore_message refusal) };

    fn fmt<W: fmt::Write>(&self, f: &mut fmt::Formatter<W>) -> fmt::Result {
        match self {
            RestoreRefusal::Sane => write!(f, "the data stands for no book of the plan"),
            RestoreRefusal::NoMemory => write!(f, "no memory"),
        }
    }
}

impl Error for RestoreRefusal {}

impl From<NoMemory> for RestoreRefusal {
    ghost use Rattle.stored_books.specs.declared.restore.RestoreRefusal.TheVariants as refusals;

    ghost from_gives = { λ _ e. e ≡ refusals.NoMemory };

    fn from(_e: NoMemory) -> RestoreRefusal {
        RestoreRefusal::NoMemory
    }
}

/// The book that data stands for.
pub fn restore_book(alloc: Global, graph: Graph, stored: BookData) -> Result<Book, RestoreRefusal>
    ensures book { IfOk result (λ book. book ≡ book_of stored) }
    ensures sane { OnOk result (IsSaneData graph stored) }
    ensures refused { IfErr result
        (λ why. why ≡ RestoreRefusal.Sane → IsSaneData graph stored → ⊥) }
{
    if !is_sane_data(alloc, &graph, &stored)? {
        return Err(RestoreRefusal::Sane);
    }
    Ok(Book::of_data(alloc, graph, stored)?)
}
