//! Ranges that cover source items bring what these bring, in whatever order they are worked and
//! however they are cut. Each function does nothing: its contract is the law.

ghost use Rattle.std.specs.Prelude.{◌≡◌, ◌+◌, List, [], map, min};
ghost use Rattle.beam_values.specs.Bags.{IsSameBag};
ghost use Rattle.beam_values.specs.Cover.{Place, times_dead, times_done, times_listed};
ghost use Rattle.beam_values.specs.declared.file_text.FileText.{FileText};
ghost use Rattle.beam_values.specs.declared.piece.Dead.{Dead};
ghost use Rattle.beam_values.specs.declared.piece.Done.{Done};
ghost use Rattle.beam_values.specs.declared.plan.Plan.{Plan};
ghost use Rattle.beam_model.specs.Coverings.{AreDistinct, spread_dones};
ghost use Rattle.beam_model.specs.Dead.{items_without};
ghost use Rattle.beam_model.specs.Positions.{SourceItem, items, item_len};
ghost use Rattle.beam_model.specs.Spread.{spread_all};

/// However the items of a run are cut into ranges, and in whatever order these are worked: where they
/// cover the items, they bring what all positions bring, each once.
#[tactic(auto, using(crate::proofs::Coverings::covering_items))]
pub fn covering_ranges_bring_everything()
    ensures { (plan : Plan) (items : List SourceItem) (dones : List Done) → AreDistinct items
        → ((place : Place)
        → times_done dones place ≡ min 1 (times_listed (map item_len items) place))
        → IsSameBag (spread_dones plan items dones) (spread_all plan items) }
{}

/// Where ranges and dead positions together cover the items, the ranges bring what all positions but
/// the dead ones bring, each once.
#[tactic(auto, using(crate::proofs::DeadPositions::covering_without))]
pub fn covering_ranges_bring_all_but_the_dead()
    ensures { (plan : Plan) (items : List SourceItem) (dones : List Done) (dead : List Dead)
        → AreDistinct items
        → ((place : Place) → times_done dones place + times_dead dead place
        ≡ min 1 (times_listed (map item_len items) place))
        → IsSameBag (spread_dones plan items dones) (spread_all plan (items_without dead items)) }
{}

/// Where nothing is dead, nothing is left out.
#[tactic(auto, using(crate::proofs::DeadPositions::without_none))]
pub fn nothing_dead_leaves_nothing_out()
    ensures { (items : List SourceItem) → items_without [] items ≡ items }
{}

/// No two items of a plan have one node and one item number.
#[tactic(auto, using(crate::proofs::Coverings::plan_distinct))]
pub fn the_items_of_a_plan_are_distinct()
    ensures { (told : List FileText) (plan : Plan) → AreDistinct (items told plan) }
{}
