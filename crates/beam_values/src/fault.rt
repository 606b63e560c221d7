use std::fmt;

/// What a fault came from: a call of a function, or a read of a file.
#[derive(Clone, Copy, Debug, PartialEq, Eq)]
pub enum Cause {
    Call,
    Read,
}

impl fmt::Display for Cause {
    ghost use Rattle.std.specs.Prelude.{Some};
    ghost use Rattle.beam_values.specs.Messages.{cause_word};

    ghost output = { λ cause. Some (cause_word cause) };

    fn fmt<W: fmt::Write>(&self, f: &mut fmt::Formatter<W>) -> fmt::Result {
        match self {
            Cause::Call => write!(f, "call"),
            Cause::Read => write!(f, "read"),
        }
    }
}

/// Which work failed too often, and how.
#[derive(Clone, Copy, Debug, PartialEq, Eq)]
pub struct FaultNote {
    /// The node of the job.
    pub node: u32,
    /// The source item, the first pane's place in the run's list of panes, or the number of the key cell.
    pub item: u32,
    /// The node whose call or file failed.
    pub at: u32,
    /// How many attempts were made, this one included.
    pub attempt: u32,
    pub cause: Cause,
}

impl fmt::Display for FaultNote {
    ghost use Rattle.std.specs.Prelude.{Some};
    ghost use Rattle.beam_values.specs.Messages.{fault_message};

    ghost output = { λ note. Some (fault_message note) };

    fn fmt<W: fmt::Write>(&self, f: &mut fmt::Formatter<W>) -> fmt::Result {
        let FaultNote {
            node,
            item,
            at,
            attempt,
            cause,
        } = self;
        write!(
            f,
            "node {node} item {item} at {at} attempt {attempt} {cause}"
        )
    }
}
