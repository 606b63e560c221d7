//! From which mark on a tree holds with so many unseen elements.

ghost use Rattle.std.specs.Prelude.{◌≡◌, fold, map};
ghost use Rattle.trigger_algebra.specs.Staircases.{greatest, is_less, least, need_of};

use crate::When;

/// What is asked of the watermark, the least first.
#[derive(Clone, Copy, Debug, PartialEq, Eq)]
pub enum Need {
    Always,
    /// It is this many milliseconds past the window's end.
    From(i64),
    Never,
}

impl Need {
    /// Whether it is met earlier than the other one.
    pub fn is_less(self, other: Need) -> bool
        ensures { result ≡ is_less self other }
    {
        match (self, other) {
            (Need::Always, Need::Always) => false,
            (Need::Always, _) => true,
            (Need::From(delay), Need::From(other)) => delay < other,
            (Need::From(_), Need::Never) => true,
            _ => false,
        }
    }

    fn least(self, other: Need) -> Need
        ensures { result ≡ least self other }
    {
        if other.is_less(self) { other } else { self }
    }

    fn greatest(self, other: Need) -> Need
        ensures { result ≡ greatest self other }
    {
        if self.is_less(other) { other } else { self }
    }
}

/// The need of a tree with so many unseen.
#[cycle(needs)]
pub fn need_at(when: &When, unseen: u32) -> Need
    ensures { result ≡ need_of when.now unseen }
{
    match when {
        When::Count(count) if *count <= unseen => Need::Always,
        When::Count(_) => Need::Never,
        When::MarkAt(delay) => Need::From(*delay),
        When::First(trees) => least_need(trees.as_slice(), unseen),
        When::All(trees) => greatest_need(trees.as_slice(), unseen),
    }
}

#[cycle(needs)]
fn least_need(trees: &[When], unseen: u32) -> Need
    ensures { result ≡ fold least Need.Never (map (λ tree. need_of tree unseen) trees.now) }
{
    let mut least = Need::Never;
    for tree in trees {
        least = least.least(need_at(tree, unseen));
    }
    least
}

#[cycle(needs)]
fn greatest_need(trees: &[When], unseen: u32) -> Need
    ensures { result ≡ fold greatest Need.Always (map (λ tree. need_of tree unseen) trees.now) }
{
    let mut greatest = Need::Always;
    for tree in trees {
        greatest = greatest.greatest(need_at(tree, unseen));
    }
    greatest
}
