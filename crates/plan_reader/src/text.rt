ghost use Rattle.std.specs.Prelude.{◌≡◌, ◌++◌, IfOk, OnOk};
ghost use Rattle.plan_reader.specs.Texts.{graph_text, numbered, owner_text, place_text};
ghost use Rattle.plan_reader.specs.Texts.{refusal_text};

use crate::refusal::{Place, PlanRefusal};
use beam_values::{Bytes, GraphRefusal, NoMemory};
use itoa::Buffer;
use std::alloc::Global;

/// The text of a refusal for the notes: its number, what it is, and where.
pub fn refusal_text(alloc: Global, refusal: &PlanRefusal) -> Result<Bytes, NoMemory>
    ensures { IfOk result (λ text. text ≡ refusal_text refusal.now) }
{
    let mut text = Bytes::new(alloc);
    match refusal {
        PlanRefusal::Syntax => text.extend_from_slice(b"1 syntax")?,
        PlanRefusal::Field(place) => push_place(b"2 field ", place, &mut text)?,
        PlanRefusal::Name(place) => push_place(b"3 name ", place, &mut text)?,
        PlanRefusal::Number(place) => push_place(b"4 number ", place, &mut text)?,
        PlanRefusal::Graph(refusal) => {
            text.extend_from_slice(b"5 graph ")?;
            push_graph(refusal, &mut text)?;
        }
        PlanRefusal::Version => text.extend_from_slice(b"6 version")?,
        PlanRefusal::Length(len) => push_number(b"7 length ", *len, &mut text)?,
    }
    Ok(text)
}

fn push_place(words: &[u8], place: &Place, text: &mut Bytes) -> Result<(), NoMemory>
    ensures { OnOk result (text.new ≡ text.old ++ (words.now ++ place_text place.now)) }
{
    text.extend_from_slice(words)?;
    push_owner(place.node, text)?;
    text.extend_from_slice(place.key.word().as_bytes())
}

fn push_owner(node: Option<u32>, text: &mut Bytes) -> Result<(), NoMemory>
    ensures { OnOk result (text.new ≡ text.old ++ owner_text node) }
{
    match node {
        None => text.extend_from_slice(b"top "),
        Some(node) => {
            push_node(b"node ", node, text)?;
            text.push(b' ')
        }
    }
}

fn push_graph(refusal: &GraphRefusal, text: &mut Bytes) -> Result<(), NoMemory>
    ensures { OnOk result (text.new ≡ text.old ++ graph_text refusal.now) }
{
    match refusal {
        GraphRefusal::Empty => text.extend_from_slice(b"1 empty"),
        GraphRefusal::TooMany => text.extend_from_slice(b"2 too many"),
        GraphRefusal::Input(node) => push_node(b"3 input ", *node, text),
        GraphRefusal::Arity(node) => push_node(b"4 arity ", *node, text),
        GraphRefusal::NoWrite => text.extend_from_slice(b"5 no write"),
        GraphRefusal::Kind(node) => push_node(b"6 kind ", *node, text),
        GraphRefusal::Setting(node) => push_node(b"7 setting ", *node, text),
        GraphRefusal::SourceWithInput(node) => push_node(b"8 source with input ", *node, text),
    }
}

fn push_node(words: &[u8], node: u32, text: &mut Bytes) -> Result<(), NoMemory>
    ensures { OnOk result (text.new ≡ text.old ++ numbered words.now node) }
{
    push_number(words, u64::from(node), text)
}

fn push_number(words: &[u8], number: u64, text: &mut Bytes) -> Result<(), NoMemory>
    ensures { OnOk result (text.new ≡ text.old ++ numbered words.now number) }
{
    text.extend_from_slice(words)?;
    text.extend_from_slice(Buffer::new().format(number).as_bytes())
}
