ghost use Rattle.std.specs.Prelude.{◌≡◌, ◌≤◌, ◌++◌, ◌↔◌, ℕ, ℤ, true, IfOk, OnOk, flat_map, fold};
ghost use Rattle.std.specs.Prelude.{length};
ghost use Rattle.beam_values.specs.Checked.{are_bars_allowed};
ghost use Rattle.beam_values.specs.Firing.{met};
ghost use Rattle.trigger_algebra.specs.declared.refusal.WhenRefusal.{WhenRefusal};
ghost use Rattle.trigger_algebra.specs.Holding.{holds};
ghost use Rattle.trigger_algebra.specs.Refusing.{are_numbers_within, counts_of, leaves, refusal_of};
ghost use Rattle.trigger_algebra.specs.Staircases.{AreWords, bar_at, insert_count, normal_of};
ghost use Rattle.trigger_algebra.specs.Staircases.{rising};

use crate::need::{Need, need_at};
use crate::refusing::refusal_of;
use crate::{NormalRefusal, When};
use beam_values::{Bar, List, NoMemory};
use std::alloc::Global;

/// The staircase of a tree: bars of which, wherever something is unseen, one is met exactly where the tree
/// holds.
pub fn normal(alloc: Global, when: &When) -> Result<List<Bar>, NormalRefusal>
    ensures exact { IfOk result (λ bars. bars ≡ normal_of when.now) }
    // Where something is unseen, a bar is met exactly where the tree holds.
    ensures held { IfOk result (λ bars. (unseen : ℕ) (past : ℤ) → 1 ≤ unseen
        → met bars unseen past ≡ holds when.now unseen past) }
    // Each bar asks for at least one element, each for more than the one before it and for less
    // delay, and no delay is beyond the tree's marks.
    ensures stairs { IfOk result (λ bars. (least most : ℤ)
        → are_numbers_within least most when.now ≡ true → are_bars_allowed least most bars ≡ true) }
    ensures few { IfOk result (λ bars. length bars ≤ leaves when.now) }
    ensures ok { OnOk result (refusal_of when.now ≡ None) }
    // A tree that is no trigger is refused for its first reason, also where memory is short.
    ensures bad { (refusal : WhenRefusal)
        → (result ≡ Err (NormalRefusal.Bad refusal)) ↔ (refusal_of when.now ≡ Some refusal) }
{
    if let Some(refusal) = refusal_of(when) {
        return Err(NormalRefusal::Bad(refusal));
    }
    Ok(stairs(alloc, when)?)
}

// A bar wherever the need of the tree falls, which it does only at the count of a leaf.
fn stairs(alloc: Global, when: &When) -> Result<List<Bar>, NoMemory>
    ensures bars { IfOk result (λ bars. bars ≡ normal_of when.now) }
    ensures words { OnOk result (AreWords (rising (counts_of when.now))) }
{
    let mut counts = Vec::new(alloc);
    add_counts(when, &mut counts)?;
    let mut bars = List::new(alloc);
    let mut last = Need::Never;
    for count in &counts {
        let need = need_at(when, *count);
        if need.is_less(last) {
            push_bar(*count, need, &mut bars)?;
            last = need;
        }
    }
    Ok(bars)
}

fn push_bar(count: u32, need: Need, bars: &mut List<Bar>) -> Result<(), NoMemory>
    ensures { OnOk result (bars.new ≡ bars.old ++ bar_at count need) }
{
    let delay = match need {
        Need::Always => None,
        Need::From(delay) => Some(delay),
        Need::Never => return Ok(()),
    };
    bars.push(Bar { count, delay })
}

// Puts the counts of a tree's leaves among rising ones.
#[cycle(counts)]
fn add_counts(when: &When, counts: &mut Vec<u32>) -> Result<(), NoMemory>
    ensures { OnOk result (counts.new.items
        ≡ fold (λ some count. insert_count count some) counts.old.items (counts_of when.now)) }
{
    match when {
        When::Count(count) => add_count(*count, counts),
        When::MarkAt(_) => add_count(1, counts),
        When::First(trees) | When::All(trees) => add_all_counts(trees.as_slice(), counts),
    }
}

#[cycle(counts)]
fn add_all_counts(trees: &[When], counts: &mut Vec<u32>) -> Result<(), NoMemory>
    ensures { OnOk result (counts.new.items
        ≡ fold (λ some count. insert_count count some) counts.old.items (flat_map counts_of trees.now)) }
{
    for tree in trees {
        add_counts(tree, counts)?;
    }
    Ok(())
}

fn add_count(count: u32, counts: &mut Vec<u32>) -> Result<(), NoMemory>
    ensures { OnOk result (counts.new.items ≡ insert_count count counts.old.items) }
{
    for (at, other) in counts.iter().enumerate() {
        if count < *other {
            counts.insert(at, count)?;
            return Ok(());
        }
        if count == *other {
            return Ok(());
        }
    }
    counts.push(count)?;
    Ok(())
}
