use crate::refusal::{Place, PlanKey, PlanReadRefusal, PlanRefusal};
use beam_values::GraphRefusal;
use std::error::Error;
use std::fmt;

impl fmt::Display for PlanKey {
    ghost use Rattle.std.specs.Prelude.{Some};
    ghost use Rattle.plan_reader.specs.Places.{key_word};

    ghost output = { λ key. Some (key_word key) };

    fn fmt<W: fmt::Write>(&self, f: &mut fmt::Formatter<W>) -> fmt::Result {
        f.write_str(self.word())
    }
}

impl fmt::Display for Place {
    ghost use Rattle.std.specs.Prelude.{Some};
    ghost use Rattle.plan_reader.specs.Texts.{place_text};

    ghost output = { λ place. Some (place_text place) };

    fn fmt<W: fmt::Write>(&self, f: &mut fmt::Formatter<W>) -> fmt::Result {
        let Place { node, key } = self;
        match node {
            None => write!(f, "top {key}"),
            Some(node) => write!(f, "node {node} {key}"),
        }
    }
}

impl fmt::Display for PlanRefusal {
    ghost use Rattle.std.specs.Prelude.{Some};
    ghost use Rattle.plan_reader.specs.Texts.{refusal_text};

    ghost output = { λ refusal. Some (refusal_text refusal) };

    fn fmt<W: fmt::Write>(&self, f: &mut fmt::Formatter<W>) -> fmt::Result {
        match self {
            PlanRefusal::Syntax => write!(f, "1 syntax"),
            PlanRefusal::Field(place) => write!(f, "2 field {place}"),
            PlanRefusal::Name(place) => write!(f, "3 name {place}"),
            PlanRefusal::Number(place) => write!(f, "4 number {place}"),
            PlanRefusal::Graph(refusal) => match refusal {
                GraphRefusal::Empty => write!(f, "5 graph 1 empty"),
                GraphRefusal::TooMany => write!(f, "5 graph 2 too many"),
                GraphRefusal::Input(node) => write!(f, "5 graph 3 input {node}"),
                GraphRefusal::Arity(node) => write!(f, "5 graph 4 arity {node}"),
                GraphRefusal::NoWrite => write!(f, "5 graph 5 no write"),
                GraphRefusal::Kind(node) => write!(f, "5 graph 6 kind {node}"),
                GraphRefusal::Setting(node) => write!(f, "5 graph 7 setting {node}"),
                GraphRefusal::SourceWithInput(node) => {
                    write!(f, "5 graph 8 source with input {node}")
                }
            },
            PlanRefusal::Version => write!(f, "6 version"),
            PlanRefusal::Length(len) => write!(f, "7 length {len}"),
        }
    }
}

impl Error for PlanRefusal {}

impl fmt::Display for PlanReadRefusal {
    ghost use Rattle.std.specs.Prelude.{Some};
    ghost use Rattle.plan_reader.specs.Messages.{read_message};

    ghost output = { λ refusal. Some (read_message refusal) };

    fn fmt<W: fmt::Write>(&self, f: &mut fmt::Formatter<W>) -> fmt::Result {
        match self {
            PlanReadRefusal::Bad(refusal) => write!(f, "{refusal}"),
            PlanReadRefusal::NoMemory => write!(f, "no memory"),
        }
    }
}

impl Error for PlanReadRefusal {}
