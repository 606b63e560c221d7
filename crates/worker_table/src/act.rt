//! What a pass does with the book in its turn.
ghost use Rattle.book_core.specs.Book.{SeenBook};
ghost use Rattle.worker_table.specs.Fits.{IsKnownIn};
ghost use Rattle.worker_table.specs.Moves.{Deed, Does};
ghost use Rattle.worker_table.specs.Notes.{Entry};
ghost use Rattle.known_jobs.specs.Jobs.{Setting};

use crate::stance::Stance;
use book_core::Book;

/// One step of the book, or a look at it.
pub trait Act {
    type Answer;

    /// What it asks of what its pass knows.
    ghost may: { Self → Setting → Entry → Type 0 };

    /// What it asks of the book.
    ghost asks: { Self → SeenBook → Type 0 };

    /// What it makes of the book.
    ghost makes: { Self → SeenBook → Self.Answer → SeenBook → Type 0 };

    /// What is noted of it.
    ghost deed: { Self → Self.Answer → Deed };

    fn act(self, book: &mut Book) -> Self::Answer
        requires { asks self book.old }
        ensures { makes self book.old result book.new };

    /// How the pass stands before its turn.
    fn before(&self) -> Stance {
        Stance::Stays
    }

    /// How it stands once it has this answer.
    fn after(_answer: &Self::Answer) -> Stance {
        Stance::Stays
    }

    /// What holds of the job as the pass knows it holds of the job as the book has it.
    ghost carries: { (act : Self) (setting : Setting) (e : Entry) (b : SeenBook)
        → IsKnownIn setting b e → may act setting e → asks act b };

    /// A pass may do what it makes.
    ghost does: { (act : Self) (answer : Self.Answer) (setting : Setting)
        (e : Entry) (b new : SeenBook) → IsKnownIn setting b e → may act setting e
        → makes act b answer new → Does setting.known e b (deed act answer) new };
}
