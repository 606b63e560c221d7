//! Panes are brought near to their order by numbers, before whole keys are compared.

ghost use Rattle.std.specs.List.Sorted.{IsPermutation};

use beam_values::{KeyRank, Pane, Value, key_or};

/// What mostly compares as the key and the window of a pane do.
#[derive(Clone, Copy, Debug, PartialEq, Eq, PartialOrd, Ord)]
struct Rank {
    key: KeyRank,
    start: i64,
}

/// Sorts panes by their ranks, which lie side by side where the keys lie scattered. A sort by whole keys
/// then finds most panes in order. Where there is no memory for the ranks, the panes stay as they are.
pub fn sort_by_ranks(panes: &mut Vec<Pane>)
    ensures { IsPermutation panes.old.items panes.new.items }
{
    let _ = panes.sort_by_cached_key(|pane| rank_of(pane));
}

fn rank_of(pane: &Pane) -> Rank {
    let null = Value::Null;
    Rank {
        key: KeyRank::of(key_or(&pane.element, &null)),
        start: pane.element.span.start(),
    }
}
