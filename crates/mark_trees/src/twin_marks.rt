ghost use Rattle.std.specs.Prelude.{◌≡◌};
ghost use Rattle.beam_values.specs.Times.{final_mark};
ghost use Rattle.mark_trees.specs.Halves.{is_due, lesser};

use beam_values::Mark;

/// What stands at one place: the mark at which it is due, and the mark at which it holds others back. Both
/// are FINAL where there is nothing.
#[derive(Clone, Copy, Debug, PartialEq, Eq)]
pub struct TwinMarks {
    pub due: Mark,
    pub hold: Mark,
}

impl TwinMarks {
    pub const NONE: TwinMarks = TwinMarks {
        due: Mark::FINAL,
        hold: Mark::FINAL,
    };
}

/// Of two places the lesser marks, each by itself.
pub fn lesser(a: TwinMarks, b: TwinMarks) -> TwinMarks
    ensures { result ≡ lesser a b }
{
    TwinMarks {
        due: a.due.min(b.due),
        hold: a.hold.min(b.hold),
    }
}

/// Whether marks are due at a bound.
pub fn is_due(bound: Mark, marks: TwinMarks) -> bool
    ensures { result ≡ is_due bound marks }
{
    marks.due.ms() <= bound.ms()
}
