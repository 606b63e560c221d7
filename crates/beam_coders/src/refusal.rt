ghost use Rattle.std.specs.Prelude.{◌≡◌};
ghost use Rattle.beam_coders.specs.Refusals.{refusal_number};

use beam_values::NoMemory;
use std::alloc::{AllocError, AllocFailed};
use std::error::Error;
use std::fmt;

/// Why no spelling stands at the front of the bytes: the first rule that fails from the left.
#[derive(Clone, Copy, Debug, PartialEq, Eq)]
pub enum CoderRefusal {
    /// The bytes end inside a tag, a varint, a length's bytes, an item or a fixed field.
    Short,
    /// A varint has an unneeded last group of 0, or goes past 64 bits.
    Overlong,
    /// A value begins with this byte, which is above 4.
    Tag(u8),
    /// A time is out of its bounds, a window's start isn't below its end, a timing byte is above 3, or
    /// a pane's index is above 4294967295.
    Range,
    /// A value stands inside more than 255 pairs and sequences.
    Deep,
}

impl CoderRefusal {
    /// Its place in the order above, from 1. Worked cases name a refusal by it.
    pub fn number(&self) -> u8
        ensures { result ≡ refusal_number self.now }
    {
        match self {
            CoderRefusal::Short => 1,
            CoderRefusal::Overlong => 2,
            CoderRefusal::Tag(_) => 3,
            CoderRefusal::Range => 4,
            CoderRefusal::Deep => 5,
        }
    }
}

impl fmt::Display for CoderRefusal {
    ghost use Rattle.std.specs.Prelude.{Some};
    ghost use Rattle.beam_coders.specs.Messages.{coder_message};

    ghost output = { λ refusal. Some (coder_message refusal) };

    fn fmt<W: fmt::Write>(&self, f: &mut fmt::Formatter<W>) -> fmt::Result {
        match self {
            CoderRefusal::Short => write!(f, "the bytes end too early"),
            CoderRefusal::Overlong => write!(f, "a varint is too long"),
            CoderRefusal::Tag(byte) => write!(f, "no value has the tag {byte}"),
            CoderRefusal::Range => write!(f, "a number is out of its bounds"),
            CoderRefusal::Deep => write!(f, "values are nested too deeply"),
        }
    }
}

impl Error for CoderRefusal {}

/// Why nothing was read.
#[derive(Clone, Copy, Debug, PartialEq, Eq)]
pub enum ReadRefusal {
    /// No spelling within the depth limit stands at the front of the bytes.
    Bad(CoderRefusal),
    NoMemory,
}

impl fmt::Display for ReadRefusal {
    ghost use Rattle.std.specs.Prelude.{Some};
    ghost use Rattle.beam_coders.specs.Messages.{read_message};

    ghost output = { λ refusal. Some (read_message refusal) };

    fn fmt<W: fmt::Write>(&self, f: &mut fmt::Formatter<W>) -> fmt::Result {
        match self {
            ReadRefusal::Bad(refusal) => write!(f, "{refusal}"),
            ReadRefusal::NoMemory => write!(f, "no memory"),
        }
    }
}

impl Error for ReadRefusal {}

impl From<CoderRefusal> for ReadRefusal {
    ghost use Rattle.beam_coders.specs.declared.refusal.ReadRefusal.TheVariants.{Bad};

    ghost from_gives = { λ refusal e. e ≡ Bad refusal };

    fn from(refusal: CoderRefusal) -> ReadRefusal {
        ReadRefusal::Bad(refusal)
    }
}

impl From<NoMemory> for ReadRefusal {
    ghost use Rattle.beam_coders.specs.declared.refusal.ReadRefusal.TheVariants as refusals;

    ghost from_gives = { λ _ e. e ≡ refusals.NoMemory };

    fn from(_e: NoMemory) -> ReadRefusal {
        ReadRefusal::NoMemory
    }
}

impl From<AllocError> for ReadRefusal {
    ghost use Rattle.beam_coders.specs.declared.refusal.ReadRefusal.TheVariants as refusals;

    ghost from_gives = { λ _ e. e ≡ refusals.NoMemory };

    fn from(_e: AllocError) -> ReadRefusal {
        ReadRefusal::NoMemory
    }
}

impl<T: Drop> From<AllocFailed<T>> for ReadRefusal {
    ghost use Rattle.beam_coders.specs.declared.refusal.ReadRefusal.TheVariants as refusals;

    ghost from_gives = { λ _ e. e ≡ refusals.NoMemory };

    fn from(_e: AllocFailed<T>) -> ReadRefusal {
        ReadRefusal::NoMemory
    }
}
