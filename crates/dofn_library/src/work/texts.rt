ghost use Rattle.beam_values.specs.declared.plan.FnKind.TheVariants as kinds;

use crate::arguments::{count_of, text_of};
use crate::shapes::{blob_of, push_valued};
use crate::texts::{begins_with, field, first_word};
use crate::{ElementWork, SharedKeys};
use beam_lines::key_field;
use beam_values::{Args, Boxed, Bytes, Element, FnKind, List, Value};
use dofn_traits::CallRefusal;
use std::alloc::Global;

/// A byte string, split at its first TAB.
#[derive(Drop)]
pub struct KeyField;

impl ElementWork for KeyField {
    ghost work = { kinds.KeyField };

    fn kind() -> FnKind {
        FnKind::KeyField
    }

    fn give(
        alloc: Global,
        keys: &mut SharedKeys,
        _args: &Args,
        e: &Element,
        out: &mut List<Element>,
    ) -> Result<(), CallRefusal> {
        let text = blob_of(&e.value).ok_or(CallRefusal::Failed)?;
        let (key, part) = key_field(text);
        let key = keys.shared(alloc, key)?;
        let part = Boxed::new(alloc, Value::Blob(Bytes::from_slice(alloc, part)?))?;
        push_valued(e, Value::Pair(key, part), out)?;
        Ok(())
    }
}

/// Each word of a byte string.
#[derive(Drop)]
pub struct Words;

impl ElementWork for Words {
    ghost work = { kinds.Words };

    fn kind() -> FnKind {
        FnKind::Words
    }

    fn give(
        alloc: Global,
        _keys: &mut SharedKeys,
        _args: &Args,
        e: &Element,
        out: &mut List<Element>,
    ) -> Result<(), CallRefusal> {
        let mut rest = blob_of(&e.value).ok_or(CallRefusal::Failed)?;
        while let Some((word, after)) = first_word(rest) {
            push_valued(e, Value::Blob(Bytes::from_slice(alloc, word)?), out)?;
            rest = after;
        }
        Ok(())
    }
}

/// The field of a byte string that has this number.
#[derive(Drop)]
pub struct Field;

impl ElementWork for Field {
    ghost work = { kinds.Field };

    fn kind() -> FnKind {
        FnKind::Field
    }

    fn give(
        alloc: Global,
        _keys: &mut SharedKeys,
        args: &Args,
        e: &Element,
        out: &mut List<Element>,
    ) -> Result<(), CallRefusal> {
        let text = blob_of(&e.value).ok_or(CallRefusal::Failed)?;
        let field = field(text, count_of(args)).ok_or(CallRefusal::Failed)?;
        push_valued(e, Value::Blob(Bytes::from_slice(alloc, field)?), out)?;
        Ok(())
    }
}

/// A byte string that begins so, as it is.
#[derive(Drop)]
pub struct KeepPrefix;

impl ElementWork for KeepPrefix {
    ghost work = { kinds.KeepPrefix };

    fn kind() -> FnKind {
        FnKind::KeepPrefix
    }

    fn give(
        alloc: Global,
        _keys: &mut SharedKeys,
        args: &Args,
        e: &Element,
        out: &mut List<Element>,
    ) -> Result<(), CallRefusal> {
        let Some(text) = blob_of(&e.value) else {
            return Ok(());
        };
        if begins_with(text, text_of(args)) {
            out.push(e.copy(alloc)?)?;
        }
        Ok(())
    }
}
