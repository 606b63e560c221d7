//! What holds of runs that go on. The function does nothing: its contract is the law.
ghost use Rattle.std.specs.Prelude.{◌≡◌, true, List, Some};
ghost use Rattle.beam_values.specs.declared.file_text.FileText.{FileText};
ghost use Rattle.beam_model.specs.Positions.{items};
ghost use Rattle.book_core.specs.Book.{SeenBook};
ghost use Rattle.book_core.specs.Runs.{HonestRun, HonestlyReached, MadeStep};
ghost use Rattle.book_core.specs.Work.{Surroundings};

/// Where a run whose fails are honest reached a book, and honest steps lead on from there, the whole is such a run: what
/// holds of runs that were never paused holds of a paused one that goes on.
pub fn runs_go_on()
    ensures { (known : Surroundings) (b c : SeenBook) (steps : List MadeStep)
        → HonestlyReached known b → HonestRun known b steps c → HonestlyReached known c }
{}

/// A book that a run over told files reached is reached by one over other told files too, if the source items of its
/// plan are the same there; and its steps lead on there as well. Calls that fail on poison alone may then be said to
/// fail at anything.
pub fn runs_are_of_their_items()
    ensures reached { (known other : Surroundings) (told files : List FileText) (b : SeenBook)
        → known.told ≡ Some told → other.told ≡ Some files → items told b.plan ≡ items files b.plan
        → (other.strict ≡ true → known.strict ≡ true)
        → HonestlyReached known b → HonestlyReached other b }
    ensures onward { (known other : Surroundings) (told files : List FileText) (b c : SeenBook) (steps : List MadeStep)
        → known.told ≡ Some told → other.told ≡ Some files → items told b.plan ≡ items files b.plan
        → (other.strict ≡ true → known.strict ≡ true)
        → HonestRun known b steps c → HonestRun other b steps c }
{}
