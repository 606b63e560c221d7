use std::error::Error;
use std::fmt;

/// The outside failed at a read or a write, and counted it.
#[derive(Clone, Copy, Debug, PartialEq, Eq)]
pub struct Failed;

impl fmt::Display for Failed {
    ghost use Rattle.std.specs.Prelude.{Some, codes};

    ghost output = { λ _. Some (codes "a read or a write failed") };

    fn fmt<W: fmt::Write>(&self, f: &mut fmt::Formatter<W>) -> fmt::Result {
        write!(f, "a read or a write failed")
    }
}

impl Error for Failed {}

/// Why a file was not opened.
#[derive(Clone, Copy, Debug, PartialEq, Eq)]
pub enum OpenRefusal {
    /// There is no file of that name.
    Absent,
    /// The outside failed, and counted it.
    Failed,
}

impl fmt::Display for OpenRefusal {
    ghost use Rattle.std.specs.Prelude.{Some};
    ghost use Rattle.beam_ports.specs.Messages.{open_message};

    ghost output = { λ refusal. Some (open_message refusal) };

    fn fmt<W: fmt::Write>(&self, f: &mut fmt::Formatter<W>) -> fmt::Result {
        match self {
            OpenRefusal::Absent => write!(f, "the file isn't there"),
            OpenRefusal::Failed => write!(f, "opening the file failed"),
        }
    }
}

impl Error for OpenRefusal {}
