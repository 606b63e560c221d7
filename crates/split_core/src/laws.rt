//! How the cover of the items begins, what it does not depend on, and what may be cut out of a range
//! that is out. Each function does nothing: its contract is the law.

ghost use Rattle.std.specs.Prelude.{◌≤◌, ℕ, ℤ, [], ◌∷◌, List, None};
ghost use Rattle.beam_values.specs.Bags.{IsSameBag};
ghost use Rattle.beam_values.specs.declared.piece.Done.{Done};
ghost use Rattle.beam_values.specs.declared.piece.FileLen.{FileLen};
ghost use Rattle.beam_values.specs.declared.piece.Piece.{Piece};
ghost use Rattle.split_core.specs.Partition.{IsPartition, IsCutOut};
ghost use Rattle.split_core.specs.Cuts.{part};

/// A range `[from, to)` that is out, wherever it stands among the others, may be cut into `[from, s)`,
/// `[s, t)` and `[t, to)`, and the middle be taken out as a piece.
pub fn the_middle_of_a_range_may_be_cut_out()
    ensures { (out rest others : List Done) (node item from s t to attempts : ℕ) (seen : ℤ)
        → from ≤ s → s ≤ t → t ≤ to
        → IsSameBag out (part node item from to ∷ others)
        → IsSameBag rest (part node item from s ∷ part node item t to ∷ others)
        → IsCutOut out
        (record {
          node = node;
          item = item;
          range = record { from = s; to = t };
          seen = seen;
          attempts = attempts;
          spent = None;
        }) rest }
{}

/// Where no item is listed, nothing is pending and nothing is out.
pub fn nothing_is_held_at_first()
    ensures { IsPartition [] [] [] }
{}

/// In which order the items are listed, and the ranges that are out, is no matter.
pub fn the_order_of_items_and_ranges_is_no_matter()
    ensures { (items others : List FileLen) (pending : List Piece) (out outs : List Done)
        → IsSameBag items others → IsSameBag out outs
        → IsPartition items pending out → IsPartition others pending outs }
{}
