//! Which trees are no triggers. No call takes memory. The depth is judged first, and no deeper than
//! the limit, so that the other looks are at trees of few levels.

ghost use Rattle.std.specs.Prelude.{◌≡◌, ◌-◌, if◌then◌else◌, nat_le, length, map};
ghost use Rattle.std.specs.List.{flat_map, list_all, list_any};
ghost use Rattle.trigger_algebra.specs.Refusing.{are_numbers_within, counts_of, depth, greatest_of};
ghost use Rattle.trigger_algebra.specs.Refusing.{has_empty, leaves, refusal_of};

use crate::{When, WhenRefusal};

/// How many levels a tree may have.
const GREATEST_DEPTH: u32 = 8;

/// How many leaves.
const GREATEST_LEAVES: u32 = 32;

/// The greatest mark, and as a negative number the least: a thousand years of 365 days.
const GREATEST_MARK: i64 = 31_536_000_000_000;

/// The first reason why a tree is no trigger, if there is one.
pub fn refusal_of(when: &When) -> Option<WhenRefusal>
    ensures { result ≡ refusal_of when.now }
{
    if !is_within_depth(when, GREATEST_DEPTH) {
        Some(WhenRefusal::Depth)
    } else if leaves_left(when, GREATEST_LEAVES).is_none() {
        Some(WhenRefusal::Leaves)
    } else if has_empty(when) {
        Some(WhenRefusal::Empty)
    } else if !are_numbers_within(when, -GREATEST_MARK, GREATEST_MARK) {
        Some(WhenRefusal::Number)
    } else {
        None
    }
}

#[cycle(depths)]
fn is_within_depth(when: &When, most: u32) -> bool
    ensures { result ≡ nat_le (depth when.now) most }
{
    if most == 0 {
        return false;
    }
    match when {
        When::Count(_) | When::MarkAt(_) => true,
        When::First(trees) | When::All(trees) => are_within_depth(trees.as_slice(), most - 1),
    }
}

#[cycle(depths)]
fn are_within_depth(trees: &[When], most: u32) -> bool
    ensures { result ≡ nat_le (greatest_of (map depth trees.now)) most }
{
    for tree in trees {
        if !is_within_depth(tree, most) {
            return false;
        }
    }
    true
}

// How many leaves may still come after this tree's, where `left` may come; `None` where it has more.
#[cycle(leaves)]
fn leaves_left(when: &When, left: u32) -> Option<u32>
    ensures { result ≡ (if nat_le (leaves when.now) left then Some (left - leaves when.now) else None) }
{
    match when {
        When::Count(_) | When::MarkAt(_) => left.checked_sub(1),
        When::First(trees) | When::All(trees) => all_leaves_left(trees.as_slice(), left),
    }
}

#[cycle(leaves)]
fn all_leaves_left(trees: &[When], left: u32) -> Option<u32>
    ensures { result ≡ (let all = length (flat_map counts_of trees.now) in
        if nat_le all left then Some (left - all) else None) }
{
    let mut left = left;
    for tree in trees {
        left = leaves_left(tree, left)?;
    }
    Some(left)
}

/// Whether a list somewhere in the tree is empty.
#[cycle(empties)]
fn has_empty(when: &When) -> bool
    ensures { result ≡ has_empty when.now }
{
    match when {
        When::Count(_) | When::MarkAt(_) => false,
        When::First(trees) | When::All(trees) => {
            trees.is_empty() || have_empty(trees.as_slice())
        }
    }
}

#[cycle(empties)]
fn have_empty(trees: &[When]) -> bool
    ensures { result ≡ list_any has_empty trees.now }
{
    for tree in trees {
        if has_empty(tree) {
            return true;
        }
    }
    false
}

/// Whether each count is at least 1 and each mark within these bounds.
#[cycle(numbers)]
pub fn are_numbers_within(when: &When, least: i64, most: i64) -> bool
    ensures { result ≡ are_numbers_within least most when.now }
{
    match when {
        When::Count(count) => *count >= 1,
        When::MarkAt(delay) => least <= *delay && *delay <= most,
        When::First(trees) | When::All(trees) => {
            are_all_numbers_within(trees.as_slice(), least, most)
        }
    }
}

#[cycle(numbers)]
fn are_all_numbers_within(trees: &[When], least: i64, most: i64) -> bool
    ensures { result ≡ list_all (are_numbers_within least most) trees.now }
{
    for tree in trees {
        if !are_numbers_within(tree, least, most) {
            return false;
        }
    }
    true
}
