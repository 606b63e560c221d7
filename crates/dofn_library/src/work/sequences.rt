ghost use Rattle.beam_values.specs.declared.plan.FnKind.TheVariants as kinds;

use crate::numbers::{greatest_of, in_word, sum_of};
use crate::shapes::{items_of, pair_of, push_pair};
use crate::{ElementWork, SharedKeys};
use beam_values::{Args, Element, FnKind, List, Value};
use dofn_traits::CallRefusal;
use std::alloc::Global;

/// The sum of the numbers of a pair's sequence. Only the whole sum has to fit.
#[derive(Drop)]
pub struct SumSeq;

impl ElementWork for SumSeq {
    ghost work = { kinds.SumSeq };

    fn kind() -> FnKind {
        FnKind::SumSeq
    }

    fn give(
        alloc: Global,
        _keys: &mut SharedKeys,
        _args: &Args,
        e: &Element,
        out: &mut List<Element>,
    ) -> Result<(), CallRefusal> {
        let pair = pair_of(&e.value).ok_or(CallRefusal::Failed)?;
        let items = items_of(pair.part.get()).ok_or(CallRefusal::Failed)?;
        let sum = sum_of(items).ok_or(CallRefusal::Failed)?;
        let sum = in_word(sum).ok_or(CallRefusal::Failed)?;
        push_pair(alloc, e, pair.key, Value::Int(sum), out)?;
        Ok(())
    }
}

/// How many items a pair's sequence has.
#[derive(Drop)]
pub struct CountSeq;

impl ElementWork for CountSeq {
    ghost work = { kinds.CountSeq };

    fn kind() -> FnKind {
        FnKind::CountSeq
    }

    fn give(
        alloc: Global,
        _keys: &mut SharedKeys,
        _args: &Args,
        e: &Element,
        out: &mut List<Element>,
    ) -> Result<(), CallRefusal> {
        let pair = pair_of(&e.value).ok_or(CallRefusal::Failed)?;
        let items = items_of(pair.part.get()).ok_or(CallRefusal::Failed)?;
        // No memory holds more items than that.
        let Ok(count) = i64::try_from(items.len()) else {
            return Err(CallRefusal::NoMemory);
        };
        push_pair(alloc, e, pair.key, Value::Int(count), out)?;
        Ok(())
    }
}

/// The greatest of the numbers of a pair's sequence; of none it is `Null`.
#[derive(Drop)]
pub struct MaxSeq;

impl ElementWork for MaxSeq {
    ghost work = { kinds.MaxSeq };

    fn kind() -> FnKind {
        FnKind::MaxSeq
    }

    fn give(
        alloc: Global,
        _keys: &mut SharedKeys,
        _args: &Args,
        e: &Element,
        out: &mut List<Element>,
    ) -> Result<(), CallRefusal> {
        let pair = pair_of(&e.value).ok_or(CallRefusal::Failed)?;
        let items = items_of(pair.part.get()).ok_or(CallRefusal::Failed)?;
        let greatest = greatest_of(items).ok_or(CallRefusal::Failed)?;
        push_pair(alloc, e, pair.key, greatest, out)?;
        Ok(())
    }
}

/// Each item of a pair's sequence, with the key.
#[derive(Drop)]
pub struct Unseq;

impl ElementWork for Unseq {
    ghost work = { kinds.Unseq };

    fn kind() -> FnKind {
        FnKind::Unseq
    }

    fn give(
        alloc: Global,
        _keys: &mut SharedKeys,
        _args: &Args,
        e: &Element,
        out: &mut List<Element>,
    ) -> Result<(), CallRefusal> {
        let pair = pair_of(&e.value).ok_or(CallRefusal::Failed)?;
        let items = items_of(pair.part.get()).ok_or(CallRefusal::Failed)?;
        out.reserve(items.len())?;
        for item in items {
            push_pair(alloc, e, pair.key, item.copy(alloc)?, out)?;
        }
        Ok(())
    }
}
