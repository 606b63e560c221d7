ghost use Rattle.std.specs.Prelude.{◌≡◌};
ghost use Rattle.pipeline_graph.specs.Refusals.{refusal_number};

use beam_values::{GraphRefusal, NoMemory};
use std::error::Error;
use std::fmt;

/// Why a plan was not checked to its end.
#[derive(Clone, Copy, Debug, PartialEq, Eq)]
pub enum CheckRefusal {
    /// The plan is no pipeline: the first rule that it breaks.
    Bad(GraphRefusal),
    NoMemory,
}

impl fmt::Display for CheckRefusal {
    ghost use Rattle.std.specs.Prelude.{Some};
    ghost use Rattle.pipeline_graph.specs.Messages.{check_message};

    ghost output = { λ refusal. Some (check_message refusal) };

    fn fmt<W: fmt::Write>(&self, f: &mut fmt::Formatter<W>) -> fmt::Result {
        match self {
            CheckRefusal::Bad(refusal) => write!(f, "{refusal}"),
            CheckRefusal::NoMemory => write!(f, "no memory"),
        }
    }
}

impl Error for CheckRefusal {}

impl From<NoMemory> for CheckRefusal {
    ghost use Rattle.pipeline_graph.specs.declared.refusal.CheckRefusal.TheVariants as refusal;

    ghost from_gives = { λ _ e. e ≡ refusal.NoMemory };

    fn from(_e: NoMemory) -> CheckRefusal {
        CheckRefusal::NoMemory
    }
}

/// The number by which a plan's error names the refusal.
pub fn refusal_number(refusal: &GraphRefusal) -> u8
    ensures { result ≡ refusal_number refusal.now }
{
    match refusal {
        GraphRefusal::Empty => 1,
        GraphRefusal::TooMany => 2,
        GraphRefusal::Input(_) => 3,
        GraphRefusal::Arity(_) => 4,
        GraphRefusal::NoWrite => 5,
        GraphRefusal::Kind(_) => 6,
        GraphRefusal::Setting(_) => 7,
        GraphRefusal::SourceWithInput(_) => 8,
    }
}
