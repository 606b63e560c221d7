ghost use Rattle.std.specs.Prelude.{◌≡◌};
ghost use Rattle.trigger_algebra.specs.Refusing.{refusal_number};

use beam_values::NoMemory;
use std::error::Error;
use std::fmt;

/// Why a tree is no trigger. Of several reasons the first one of Depth, Leaves, Empty and Number counts.
#[derive(Clone, Copy, Debug, PartialEq, Eq)]
pub enum WhenRefusal {
    /// It is more than 8 levels deep; a count or a mark alone is one.
    Depth,
    /// It has more than 32 counts and marks.
    Leaves,
    /// A count is 0, or a mark is more than a thousand years of 365 days from the window's end.
    Number,
    /// A list has no tree.
    Empty,
}

impl WhenRefusal {
    /// Its place in the list above, from 1.
    pub fn number(&self) -> u8
        ensures { result ≡ refusal_number self.now }
    {
        match self {
            WhenRefusal::Depth => 1,
            WhenRefusal::Leaves => 2,
            WhenRefusal::Number => 3,
            WhenRefusal::Empty => 4,
        }
    }
}

impl fmt::Display for WhenRefusal {
    ghost use Rattle.std.specs.Prelude.{Some};
    ghost use Rattle.trigger_algebra.specs.Messages.{when_message};

    ghost output = { λ refusal. Some (when_message refusal) };

    fn fmt<W: fmt::Write>(&self, f: &mut fmt::Formatter<W>) -> fmt::Result {
        match self {
            WhenRefusal::Depth => write!(f, "a trigger is nested too deeply"),
            WhenRefusal::Leaves => write!(f, "a trigger has too many counts and marks"),
            WhenRefusal::Number => write!(f, "a number of a trigger is out of its bounds"),
            WhenRefusal::Empty => write!(f, "a list of triggers is empty"),
        }
    }
}

impl Error for WhenRefusal {}

/// Why a tree has no normal form.
#[derive(Clone, Copy, Debug, PartialEq, Eq)]
pub enum NormalRefusal {
    Bad(WhenRefusal),
    NoMemory,
}

impl fmt::Display for NormalRefusal {
    ghost use Rattle.std.specs.Prelude.{Some};
    ghost use Rattle.trigger_algebra.specs.Messages.{normal_message};

    ghost output = { λ refusal. Some (normal_message refusal) };

    fn fmt<W: fmt::Write>(&self, f: &mut fmt::Formatter<W>) -> fmt::Result {
        match self {
            NormalRefusal::Bad(refusal) => write!(f, "{refusal}"),
            NormalRefusal::NoMemory => write!(f, "no memory"),
        }
    }
}

impl Error for NormalRefusal {}

impl From<NoMemory> for NormalRefusal {
    ghost use Rattle.trigger_algebra.specs.declared.refusal.NormalRefusal.TheVariants as refusals;

    ghost from_gives = { λ _ e. e ≡ refusals.NoMemory };

    fn from(_e: NoMemory) -> NormalRefusal {
        NormalRefusal::NoMemory
    }
}
