ghost use Rattle.beam_values.specs.declared.plan.FnKind.TheVariants as kinds;

use crate::shapes::{blob_of, pair_of, push_pair, push_valued};
use crate::texts::int_of;
use crate::{ElementWork, SharedKeys};
use beam_values::{Args, Element, FnKind, List, Value};
use dofn_traits::CallRefusal;
use std::alloc::Global;

/// A pair with the number that its part writes.
#[derive(Drop)]
pub struct FieldInt;

impl ElementWork for FieldInt {
    ghost work = { kinds.FieldInt };

    fn kind() -> FnKind {
        FnKind::FieldInt
    }

    fn give(
        alloc: Global,
        _keys: &mut SharedKeys,
        _args: &Args,
        e: &Element,
        out: &mut List<Element>,
    ) -> Result<(), CallRefusal> {
        let pair = pair_of(&e.value).ok_or(CallRefusal::Failed)?;
        let text = blob_of(pair.part.get()).ok_or(CallRefusal::Failed)?;
        let number = int_of(text).ok_or(CallRefusal::Failed)?;
        push_pair(alloc, e, pair.key, Value::Int(number), out)?;
        Ok(())
    }
}

/// The pair with its parts in the other order.
#[derive(Drop)]
pub struct Swap;

impl ElementWork for Swap {
    ghost work = { kinds.Swap };

    fn kind() -> FnKind {
        FnKind::Swap
    }

    fn give(
        _alloc: Global,
        _keys: &mut SharedKeys,
        _args: &Args,
        e: &Element,
        out: &mut List<Element>,
    ) -> Result<(), CallRefusal> {
        let pair = pair_of(&e.value).ok_or(CallRefusal::Failed)?;
        let swapped = Value::Pair(pair.part.share()?, pair.key.share()?);
        push_valued(e, swapped, out)?;
        Ok(())
    }
}

/// The part of a pair.
#[derive(Drop)]
pub struct Values;

impl ElementWork for Values {
    ghost work = { kinds.Values };

    fn kind() -> FnKind {
        FnKind::Values
    }

    fn give(
        alloc: Global,
        _keys: &mut SharedKeys,
        _args: &Args,
        e: &Element,
        out: &mut List<Element>,
    ) -> Result<(), CallRefusal> {
        let pair = pair_of(&e.value).ok_or(CallRefusal::Failed)?;
        push_valued(e, pair.part.get().copy(alloc)?, out)?;
        Ok(())
    }
}
