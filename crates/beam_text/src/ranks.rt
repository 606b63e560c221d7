//! Elements are brought near to their order by numbers, before whole elements are compared.

ghost use Rattle.std.specs.List.Sorted.{IsPermutation};

use beam_values::{Element, KeyRank, Timing, Value};

/// What mostly compares as elements do: their place, and then the key that their value begins with.
#[derive(Clone, Copy, Debug, PartialEq, Eq, PartialOrd, Ord)]
struct Rank {
    start: i64,
    end: i64,
    index: u32,
    timing: Timing,
    time: i64,
    key: KeyRank,
}

/// Sorts elements by their windows alone, of which there are mostly few. Those of one window stay in the
/// order in which they came. Where there is no memory for that, all elements stay as they are.
pub(crate) fn sort_by_windows(elements: &mut Vec<&Element>)
    ensures { IsPermutation elements.old.items elements.new.items }
{
    let _ = elements.sort_by_cached_key(|element| element.span);
}

/// Sorts elements by their ranks, which lie side by side where the elements lie scattered. A sort by
/// whole elements then finds most of them in order. Where there is no memory for the ranks, the elements
/// stay as they are.
pub(crate) fn sort_by_ranks(elements: &mut Vec<&Element>)
    ensures { IsPermutation elements.old.items elements.new.items }
{
    let _ = elements.sort_by_cached_key(|element| rank_of(element));
}

fn rank_of(element: &Element) -> Rank {
    Rank {
        start: element.span.start(),
        end: element.span.end(),
        index: element.pane.index,
        timing: element.pane.timing,
        time: element.time.ms(),
        key: KeyRank::of(key_or_value(&element.value)),
    }
}

fn key_or_value(value: &Value) -> &Value {
    match value {
        Value::Pair(key, _) => key.get(),
        whole => whole,
    }
}
