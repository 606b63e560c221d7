use crate::ExecRefusal;
use beam_values::Cause;
use std::error::Error;
use std::fmt;

impl fmt::Display for ExecRefusal {
    ghost use Rattle.std.specs.Prelude.{Some};
    ghost use Rattle.chain_exec.specs.Messages.{exec_message};

    ghost output = { λ refusal. Some (exec_message refusal) };

    fn fmt<W: fmt::Write>(&self, f: &mut fmt::Formatter<W>) -> fmt::Result {
        match self {
            ExecRefusal::Faulted { at, cause } => match cause {
                Cause::Call => write!(f, "the function of node {at} failed"),
                Cause::Read => write!(f, "reading the file of node {at} failed"),
            },
            ExecRefusal::NoMemory => write!(f, "no memory"),
        }
    }
}

impl Error for ExecRefusal {}
