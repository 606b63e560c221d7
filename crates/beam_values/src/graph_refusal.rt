use std::error::Error;
use std::fmt;

/// Why a plan is no pipeline; the numbers are those of its nodes. The rules and their order are in
/// `specs/Checked.antt`.
#[derive(Clone, Copy, Debug, PartialEq, Eq)]
pub enum GraphRefusal {
    /// There is no node.
    Empty,
    /// There are more than 64 nodes.
    TooMany,
    /// An input isn't a lower node.
    Input(u32),
    /// The node has too few inputs or too many.
    Arity(u32),
    /// There is no Write.
    NoWrite,
    /// An input is a Write, which puts nothing out.
    Kind(u32),
    /// An argument, a file, a strategy, an estimator or a trigger isn't allowed there.
    Setting(u32),
    /// A source has an input.
    SourceWithInput(u32),
}

impl fmt::Display for GraphRefusal {
    ghost use Rattle.std.specs.Prelude.{Some};
    ghost use Rattle.beam_values.specs.Messages.{graph_message};

    ghost output = { λ refusal. Some (graph_message refusal) };

    fn fmt<W: fmt::Write>(&self, f: &mut fmt::Formatter<W>) -> fmt::Result {
        match self {
            GraphRefusal::Empty => write!(f, "there is no node"),
            GraphRefusal::TooMany => write!(f, "there are more than 64 nodes"),
            GraphRefusal::Input(node) => write!(f, "an input of node {node} isn't a lower node"),
            GraphRefusal::Arity(node) => write!(f, "node {node} has too few inputs or too many"),
            GraphRefusal::NoWrite => write!(f, "nothing is written"),
            GraphRefusal::Kind(node) => write!(f, "node {node} takes from a write"),
            GraphRefusal::Setting(node) => write!(
                f,
                "a setting of node {node} isn't allowed there"
            ),
            GraphRefusal::SourceWithInput(node) => write!(
                f,
                "node {node} is a source with an input"
            ),
        }
    }
}

impl Error for GraphRefusal {}
