use beam_values::{List, NoMemory, Time, Value};
use std::error::Error;
use std::fmt;

/// Why a call of a function gave nothing.
#[derive(Clone, Copy, Debug, PartialEq, Eq)]
pub enum CallRefusal {
    /// The input is poison for the function, or the function failed; it counted a fault.
    Failed,
    NoMemory,
}

impl fmt::Display for CallRefusal {
    ghost use Rattle.std.specs.Prelude.{Some};
    ghost use Rattle.dofn_traits.specs.Messages.{call_message};

    ghost output = { λ refusal. Some (call_message refusal) };

    fn fmt<W: fmt::Write>(&self, f: &mut fmt::Formatter<W>) -> fmt::Result {
        match self {
            CallRefusal::Failed => write!(f, "the call failed"),
            CallRefusal::NoMemory => write!(f, "no memory"),
        }
    }
}

impl Error for CallRefusal {}

impl From<NoMemory> for CallRefusal {
    ghost use Rattle.std.specs.Prelude.{◌≡◌};
    ghost use Rattle.dofn_traits.specs.declared.calls.CallRefusal.TheVariants as refusal;

    ghost from_gives = { λ _ e. e ≡ refusal.NoMemory };

    fn from(_e: NoMemory) -> CallRefusal {
        CallRefusal::NoMemory
    }
}

/// A value at a time, before it is an element.
#[derive(Debug, Drop)]
pub struct Timed {
    pub value: Value,
    pub time: Time,
}

/// What positions of a source gave: values in order, and the last watermark that one declared.
#[derive(Debug, Drop)]
pub struct Emission {
    pub items: List<Timed>,
    pub declared: Option<Time>,
}

/// What a call at a position of a source found.
#[derive(Clone, Copy, Debug, PartialEq, Eq)]
pub enum Found {
    /// The position after it, as an offset in the item.
    Here(u64),
    /// The line goes on past the bytes that were handed in.
    More,
}

/// Bytes of a file of `len` bytes, from the offset `base` on.
#[derive(Clone, Copy)]
pub struct Look<'a> {
    pub bytes: &'a [u8],
    pub base: u64,
    pub len: u64,
}
