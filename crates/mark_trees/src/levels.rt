ghost use Rattle.std.specs.Prelude.{◌≡◌, ◌≤◌, ◌<◌, ◌+◌, ◌*◌, ◌/◌, [], ◌∷◌, drop, take, length, get_or, All};
ghost use Rattle.std.specs.Prelude.{◌-◌, nat_lt, true, IfOk, vec_capacity, vec_len, slice_get, OnOk, Some, Vec as VecOf};
ghost use Rattle.std.specs.declared.alloc.Global.{Global};
ghost use Rattle.mark_trees.specs.Halves.{AreLevels, HasTop, first_due, halved, halvings, lowest, put, put_up};
ghost use Rattle.mark_trees.specs.Levels.{HasRoom, HaveRoom, IsPutAt, lists_of};
ghost use Rattle.mark_trees.specs.declared.twin_marks.TwinMarks.{TwinMarks as TwinMarksOf};

use crate::twin_marks::{TwinMarks, is_due, lesser};
use beam_values::{Mark, NoMemory};
use std::alloc::Global;

/// An item is put at a place of the lowest list, behind the last or in the place of another, and what lies
/// over it follows, up to the list in which nothing changes. Takes no memory.
pub fn put_up(levels: &mut Vec<Vec<TwinMarks>>, at: usize, marks: TwinMarks)
    requires levels { AreLevels (lists_of levels.old.items) }
    requires room { HaveRoom at levels.old.items }
    ensures { lists_of levels.new.items ≡ put_up (lists_of levels.old.items) at marks }
{
    let mut at = at;
    let mut marks = marks;
    for k in 0..levels.len() {
        if stands(level_at(levels, k), at, &marks) {
            return;
        }
        marks = put_at(levels, k, at, marks);
        at /= 2;
    }
}

/// One of the lists.
pub fn level_at(levels: &Vec<Vec<TwinMarks>>, k: usize) -> &[TwinMarks]
    requires { k < length levels.now.items }
    ensures { result.now ≡ lowest (drop k (lists_of levels.now.items)) }
{
    levels[k].as_slice()
}

/// Whether this is what stands at a place.
fn stands(level: &[TwinMarks], at: usize, marks: &TwinMarks) -> bool
    ensures { result ≡ true → slice_get level.now at ≡ Some marks.now }
{
    match level.get(at) {
        Some(own) => own == marks,
        None => false,
    }
}

/// The same in one of the lists; answers what lies over the place then.
fn put_at(levels: &mut Vec<Vec<TwinMarks>>, k: usize, at: usize, marks: TwinMarks) -> TwinMarks
    requires within { k < length levels.old.items }
    requires room { HaveRoom at (drop k levels.old.items) }
    ensures { (old : VecOf TwinMarksOf Global) → slice_get levels.old.items k ≡ Some old
        → IsPutAt levels.old.items k old at marks levels.new.items result }
{
    let level = &mut levels[k];
    put(level, at, marks)
}

fn put(level: &mut Vec<TwinMarks>, at: usize, marks: TwinMarks) -> TwinMarks
    requires within { at ≤ length level.old.items }
    requires room { at ≡ length level.old.items → vec_len level.old < vec_capacity level.old }
    ensures items { level.new.items ≡ put level.old.items at marks }
    ensures up { (d : TwinMarksOf) → result ≡ get_or (halved level.new.items) (at / 2) d }
{
    if at < level.len() {
        level[at] = marks;
        return lesser_of_pair(level.as_slice(), at / 2);
    }
    level.push_reserved(marks);
    lesser_of_pair(level.as_slice(), at / 2)
}

/// What lies over two neighbours, or over a last one without a neighbour.
pub fn lesser_of_pair(level: &[TwinMarks], at: usize) -> TwinMarks
    requires { 2 * at < length level.now }
    ensures { (d : TwinMarksOf) → result ≡ get_or (halved level.now) at d }
{
    let first = level[2 * at];
    if 2 * at + 1 < level.len() {
        lesser(first, level[2 * at + 1])
    } else {
        first
    }
}

/// Of the two places under one, the first that is due.
pub fn first_of_pair(level: &[TwinMarks], at: usize, bound: Mark) -> usize
    requires within { 2 * at < length level.now }
    requires over { first_due bound (halved level.now) ≡ Some at }
    ensures { first_due bound level.now ≡ Some result }
{
    if is_due(bound, level[2 * at]) {
        2 * at
    } else {
        2 * at + 1
    }
}

/// Keeps room for one more item in each list.
pub fn keep_room(levels: &mut Vec<Vec<TwinMarks>>) -> Result<(), NoMemory>
    ensures lists { lists_of levels.new.items ≡ lists_of levels.old.items }
    ensures ok { OnOk result (All HasRoom levels.new.items) }
{
    for k in 0..levels.len() {
        keep_at(levels, k)?;
    }
    Ok(())
}

fn keep_at(levels: &mut Vec<Vec<TwinMarks>>, k: usize) -> Result<(), NoMemory>
    requires { k < length levels.old.items }
    ensures lists { lists_of levels.new.items ≡ lists_of levels.old.items }
    ensures len { vec_len levels.new ≡ vec_len levels.old }
    ensures ok { OnOk result (All HasRoom (take k levels.old.items) → All HasRoom (take (k + 1) levels.new.items)) }
{
    let level = &mut levels[k];
    level.reserve(1)?;
    Ok(())
}

/// Adds lists above, until the place that lies over one is the first of the highest.
pub fn grow(alloc: Global, levels: &mut Vec<Vec<TwinMarks>>, at: usize) -> Result<(), NoMemory>
    requires levels { AreLevels (lists_of levels.old.items) }
    requires at { at ≡ length (lowest (lists_of levels.old.items)) }
    ensures levels { AreLevels (lists_of levels.new.items) }
    ensures lowest { lowest (lists_of levels.new.items) ≡ lowest (lists_of levels.old.items) }
    ensures ok { OnOk result (HasTop at (lists_of levels.new.items)) }
{
    if levels.is_empty() {
        levels.push(Vec::new(alloc))?;
        return Ok(());
    }
    if is_full(levels.len(), at) {
        return raise(alloc, levels, at);
    }
    Ok(())
}

/// The highest list lies over itself then.
fn raise(alloc: Global, levels: &mut Vec<Vec<TwinMarks>>, at: usize) -> Result<(), NoMemory>
    requires some { 0 < length levels.old.items }
    requires levels { AreLevels (lists_of levels.old.items) }
    requires at { at ≡ length (lowest (lists_of levels.old.items)) }
    ensures levels { AreLevels (lists_of levels.new.items) }
    ensures lowest { lowest (lists_of levels.new.items) ≡ lowest (lists_of levels.old.items) }
    ensures ok { OnOk result (HasTop at (lists_of levels.new.items)) }
{
    let highest = copy_of(alloc, levels.as_slice())?;
    levels.push(highest)?;
    Ok(())
}

/// Whether the place that lies over one is not the first of the highest list.
fn is_full(levels: usize, at: usize) -> bool
    requires { 0 < levels }
    ensures { result ≡ nat_lt 0 (halvings at (levels - 1)) }
{
    let mut at = at;
    for _level in 1..levels {
        at /= 2;
    }
    at > 0
}

fn copy_of(alloc: Global, levels: &[Vec<TwinMarks>]) -> Result<Vec<TwinMarks>, NoMemory>
    requires { 0 < length levels.now }
    ensures { IfOk result (λ copy. (d : VecOf TwinMarksOf Global)
        → copy.items ≡ (get_or levels.now (length levels.now - 1) d).items) }
{
    let highest = &levels[levels.len() - 1];
    let copy = Vec::from_slice(alloc, highest.as_slice())?;
    Ok(copy)
}
