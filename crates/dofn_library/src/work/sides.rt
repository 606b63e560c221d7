ghost use Rattle.std.specs.Prelude.{◌≡◌, ◌++◌, List as ListOf, map, pos, true, IfOk, IfSome, OnOk};
ghost use Rattle.std.specs.List.{flat_map, list_all};
ghost use Rattle.std.specs.List.Sorted.{IsSorted};
ghost use Rattle.beam_values.specs.Orders.{value_cmp};
ghost use Rattle.beam_values.specs.declared.plan.FnKind.TheVariants as kinds;
ghost use Rattle.beam_model.specs.Functions.{ascending, is_pair, main_values, valued};
ghost use Rattle.beam_model.specs.Functions.{value_tagged, view_values};
ghost use Rattle.beam_model.specs.Values.{pair, seq};
ghost use Rattle.dofn_library.specs.Sides.{looked_up, IsAllFound};

use crate::arguments::number_of;
use crate::batches::sorted;
use crate::shapes::{pair_of, push_valued};
use crate::sides::{
    MAIN, VIEW, are_pairs, copy_views, has_mains, only_view, push_mains, sides_of, tagged,
};
use crate::views::{Found, found_for};
use crate::{ElementWork, SharedKeys};
use beam_values::{Args, Boxed, Element, FnKind, List, NoMemory, Value};
use dofn_traits::CallRefusal;
use std::alloc::Global;

/// Any value with a tag, below the key `Null`, so that all values of a window come into one pane.
#[derive(Drop)]
pub struct Tag;

impl ElementWork for Tag {
    ghost work = { kinds.Tag };

    fn kind() -> FnKind {
        FnKind::Tag
    }

    fn give(
        alloc: Global,
        keys: &mut SharedKeys,
        args: &Args,
        e: &Element,
        out: &mut List<Element>,
    ) -> Result<(), CallRefusal> {
        let null = keys.shared_null(alloc)?;
        let tag = keys.shared_number(alloc, number_of(args))?;
        let value = Boxed::new(alloc, e.value.copy(alloc)?)?;
        let part = Boxed::new(alloc, Value::Pair(tag, value))?;
        push_valued(e, Value::Pair(null, part), out)?;
        Ok(())
    }
}

/// Each main value with all values of the view, which all pairs share.
#[derive(Drop)]
pub struct JoinList;

impl ElementWork for JoinList {
    ghost work = { kinds.JoinList };

    fn kind() -> FnKind {
        FnKind::JoinList
    }

    fn give(
        alloc: Global,
        _keys: &mut SharedKeys,
        _args: &Args,
        e: &Element,
        out: &mut List<Element>,
    ) -> Result<(), CallRefusal> {
        let parts = sides_of(&e.value).ok_or(CallRefusal::Failed)?;
        join_all(alloc, e, parts, out)?;
        Ok(())
    }
}

fn join_all(
    alloc: Global,
    e: &Element,
    parts: &[Value],
    out: &mut List<Element>,
) -> Result<(), NoMemory>
    ensures { OnOk result (out.new ≡ out.old
        ++ map (λ main. valued e.now (pair main (seq (ascending (view_values parts.now)))))
        (main_values parts.now)) }
{
    let views = sorted(copy_views(alloc, parts)?)?;
    push_mains(e, parts, &Boxed::new(alloc, Value::Seq(views))?, out)
}

/// Each main value with the only value of the view.
#[derive(Drop)]
pub struct JoinSingle;

impl ElementWork for JoinSingle {
    ghost work = { kinds.JoinSingle };

    fn kind() -> FnKind {
        FnKind::JoinSingle
    }

    fn give(
        _alloc: Global,
        _keys: &mut SharedKeys,
        _args: &Args,
        e: &Element,
        out: &mut List<Element>,
    ) -> Result<(), CallRefusal> {
        let parts = sides_of(&e.value).ok_or(CallRefusal::Failed)?;
        match only_view(parts) {
            Some(view) => push_mains(e, parts, view, out)?,
            None if has_mains(parts) => return Err(CallRefusal::Failed),
            None => {}
        }
        Ok(())
    }
}

/// Each main value, a pair, with the values that belong to its key in the view.
#[derive(Drop)]
pub struct JoinLookup;

impl ElementWork for JoinLookup {
    ghost work = { kinds.JoinLookup };

    fn kind() -> FnKind {
        FnKind::JoinLookup
    }

    fn give(
        alloc: Global,
        _keys: &mut SharedKeys,
        _args: &Args,
        e: &Element,
        out: &mut List<Element>,
    ) -> Result<(), CallRefusal> {
        let parts = sides_of(&e.value).ok_or(CallRefusal::Failed)?;
        if !are_pairs(parts, VIEW) || !are_pairs(parts, MAIN) {
            return Err(CallRefusal::Failed);
        }
        look_up(alloc, e, parts, out)?;
        Ok(())
    }
}

fn look_up(
    alloc: Global,
    e: &Element,
    parts: &[Value],
    out: &mut List<Element>,
) -> Result<(), NoMemory>
    requires { list_all (λ part. list_all is_pair (value_tagged (pos 0) part)) parts.now ≡ true }
    ensures { OnOk result (out.new ≡ out.old ++ map (valued e.now)
        (flat_map (looked_up (view_values parts.now)) (main_values parts.now))) }
{
    let views = sorted(copy_views(alloc, parts)?)?;
    let mut last = None;
    for part in parts {
        if let Some(main) = tagged(part, MAIN) {
            last = push_found(alloc, e, main, views.as_slice(), last, out)?;
        }
    }
    Ok(())
}

// Adds a main value with what belongs to its key in a view, and gives this for the next one.
fn push_found(
    alloc: Global,
    e: &Element,
    main: &Boxed<Value>,
    views: &[Value],
    last: Option<Found>,
    out: &mut List<Element>,
) -> Result<Option<Found>, NoMemory>
    requires ascending { IsSorted value_cmp views.now }
    requires pairs { list_all is_pair views.now ≡ true }
    requires last { IfSome last (λ found. IsAllFound views.now found.key found.part) }
    ensures out { OnOk result ((all : ListOf Value) → views.now ≡ ascending all
        → out.new ≡ out.old ++ map (valued e.now) (looked_up all main.now)) }
    ensures found { IfOk result
        (λ last. IfSome last (λ found. IsAllFound views.now found.key found.part)) }
{
    let Some(pair) = pair_of(main.get()) else {
        return Ok(last);
    };
    let found = found_for(alloc, views, pair.key, last)?;
    push_valued(e, Value::Pair(main.share()?, found.part.share()?), out)?;
    Ok(Some(found))
}
