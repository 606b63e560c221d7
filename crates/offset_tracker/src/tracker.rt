ghost use Rattle.std.specs.Prelude.{◌≡◌, ◌+◌, ◌-◌, ◌^◌, ◌<◌, ◌≤◌, ◌↔◌, Some, None, IsTrue, IfSome};
ghost use Rattle.beam_values.specs.Tracking.{Tracked, MayClaim, first_unattempted, split_point_of};
ghost use Rattle.beam_values.specs.Tracking.{residual, primary, claimed, is_granted, IsDone};

use beam_values::Range;
use std::marker::Model;

/// The greatest denominator of a split.
pub const GREATEST_DENOMINATOR: u64 = 1_000_000;

/// A restriction that is being worked, and how far.
#[derive(Clone, Copy, Debug)]
pub struct Tracker {
    range: Range,
    attempted: Option<u64>,
}

impl Model for Tracker {
    ghost use Rattle.std.specs.Prelude.{◌≤◌};
    ghost use Rattle.std.specs.Option.{ForSome};
    ghost use Rattle.beam_values.specs.Tracking.{Tracked};

    ghost Value = { Tracked };

    ghost view = { λ t. record { range = t.range; attempted = t.attempted } };

    ghost invariant = { λ t. ForSome t.attempted (λ last. t.range.from ≤ last) };

    ghost inverse = { λ v. record { range = v.range; attempted = v.attempted } };
}

impl Tracker {
    /// No position of the restriction was attempted yet.
    pub fn new(range: Range) -> Tracker
        ensures { result ≡ record { range = range; attempted = None } }
    {
        Tracker {
            range,
            attempted: None,
        }
    }

    /// The restriction as it stands, shortened by each split.
    pub fn range(&self) -> Range
        ensures { result ≡ self.now.range }
    {
        self.range
    }

    /// The last attempted position, also where its claim was refused.
    pub fn attempted(&self) -> Option<u64>
        ensures value { result ≡ self.now.attempted }
        ensures from_start { IfSome result (λ last. self.now.range.from ≤ last) }
    {
        self.attempted
    }

    /// The test of what [`Tracker::try_claim`] requires.
    pub fn may_claim(&self, p: u64) -> bool
        ensures { IsTrue result ↔ MayClaim self.now p }
    {
        let above = match self.attempted {
            None => true,
            Some(last) => last < p,
        };
        self.range.from() <= p && above
    }

    /// Attempts `p`. The answer is true exactly where `p` lies in the restriction.
    pub fn try_claim(&mut self, p: u64) -> bool
        requires { MayClaim self.old p }
        ensures answer { result ≡ is_granted self.old p }
        ensures after { self.new ≡ claimed self.old p }
    {
        self.attempted = Some(p);
        p < self.range.to()
    }

    /// Cuts the part `num / den` of what is left off from the rest, which is answered.
    pub fn try_split(&mut self, num: u64, den: u64) -> Option<Range>
        requires proper { num ≤ den }
        requires positive { 1 ≤ den }
        requires small { den ≤ 1000000 }
        ensures answer { result ≡ residual (split_point_of self.old num den) self.old.range.to }
        ensures after { self.new ≡ primary self.old (split_point_of self.old num den) }
    {
        let to = self.range.to();
        let at = self.split_point(num, den);
        if at >= u128::from(to) {
            return None;
        }
        let at = at as u64;
        self.range = Range::between(self.range.from(), at);
        Some(Range::between(at, to))
    }

    /// Cuts right after the last attempted position: the split at 0.
    pub fn checkpoint(&mut self) -> Option<Range>
        ensures answer { result ≡ residual (split_point_of self.old 0 1) self.old.range.to }
        ensures after { self.new ≡ primary self.old (split_point_of self.old 0 1) }
    {
        self.try_split(0, 1)
    }

    /// Whether nothing of the restriction is left to claim.
    pub fn check_done(&self) -> bool
        ensures { IsTrue result ↔ IsDone self.now }
    {
        let range = self.range;
        range.to() <= range.from() || u128::from(range.to()) <= self.first_unattempted()
    }

    // One above the last attempted position. It may be 2^64.
    fn first_unattempted(&self) -> u128
        ensures value { result ≡ first_unattempted self.now.range.from self.now.attempted }
        ensures from_start { self.now.range.from ≤ result }
        ensures small { result ≤ 2 ^ 64 }
    {
        match self.attempted {
            None => u128::from(self.range.from()),
            Some(last) => u128::from(last) + 1,
        }
    }

    fn split_point(&self, num: u64, den: u64) -> u128
        requires proper { num ≤ den }
        requires positive { 1 ≤ den }
        requires small { den ≤ 1000000 }
        ensures { result ≡ split_point_of self.now num den }
    {
        let open = self.first_unattempted();
        let left = (u128::from(self.range.to()) + 1).saturating_sub(open);
        let part = left * u128::from(num) / u128::from(den);
        open + part.max(1) - 1
    }
}
