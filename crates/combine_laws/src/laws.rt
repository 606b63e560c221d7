//! What folded parts and combined elements show. Each function does nothing: its contract is the law.

ghost use Rattle.std.specs.Prelude.{◌≡◌, ℕ, ◌<◌, true, List, [], ◌∷◌, map, Some, is_none};
ghost use Rattle.std.specs.List.{All, count_by, list_all, list_any};
ghost use Rattle.beam_values.specs.Bags.{IsSameBag};
ghost use Rattle.beam_values.specs.Checked.{IsChecked};
ghost use Rattle.beam_values.specs.Grouping.{IsPlainGrouping, pane_with};
ghost use Rattle.beam_values.specs.Intervals.{Interval};
ghost use Rattle.beam_values.specs.Storable.{IsStorable};
ghost use Rattle.beam_values.specs.declared.arrival.Arrival.{Arrival};
ghost use Rattle.beam_values.specs.declared.element.Element.{Element};
ghost use Rattle.beam_values.specs.declared.file_text.FileText.{FileText};
ghost use Rattle.beam_values.specs.declared.piece.Done.{Done};
ghost use Rattle.beam_values.specs.declared.plan.FnKind.{FnKind};
ghost use Rattle.beam_values.specs.declared.plan.Plan.{Plan};
ghost use Rattle.beam_values.specs.declared.value.Value.{Value};
ghost use Rattle.beam_model.specs.Chains.{Arrives, chain};
ghost use Rattle.beam_model.specs.Coverings.{spread_dones};
ghost use Rattle.beam_model.specs.Functions.{fold_of, folds};
ghost use Rattle.beam_model.specs.Positions.{items};
ghost use Rattle.beam_model.specs.Spread.{first_poison, spread_all};
ghost use Rattle.combine_lift.specs.Folds.{AreFolds};
ghost use Rattle.combine_lift.specs.Lifting.{IsLiftable};
ghost use Rattle.combine_lift.specs.Tables.{parts_of};
ghost use Rattle.combine_lift.specs.declared.combined.Combined.{Combined};
ghost use Rattle.combine_laws.specs.Brought.{added_by, added_of, is_arrival, is_brought};
ghost use Rattle.combine_laws.specs.Brought.{is_untaken};
ghost use Rattle.combine_laws.specs.Combined.{HasFunction, IsCombined, MeetsMany, MeetsPart};
ghost use Rattle.combine_laws.specs.Combined.{MeetsPoison, MeetsSum, most_parts, takes_of};
ghost use Rattle.combine_laws.specs.Lasting.{HasLasted, chains_of, combined_element, element_of};
ghost use Rattle.combine_laws.specs.Lasting.{pane_of};

/// No order of the parts changes their fold.
#[tactic(auto, using(crate::proofs::Folding::folds_alike))]
pub fn folds_have_no_order()
    ensures { (work : FnKind) → folds work ≡ true → (parts others : List Value)
        → IsSameBag parts others → fold_of work parts ≡ fold_of work others }
{}

/// Whatever a position of a lifted plan brings comes to the plan's Group, or is poison.
pub fn positions_bring_to_the_group()
    ensures { (plan : Plan) → IsChecked plan → (files : List FileText)
        → (group function : ℕ) (work : FnKind) → IsLiftable plan
        → HasFunction plan group function work
        → All (λ output. is_brought group output ≡ true) (spread_all plan (items files plan)) }
{}

/// A pane brings from the Group what the fold of its parts, under its key, brings from the function.
pub fn panes_bring_what_their_folds_do()
    ensures { (plan : Plan) → IsChecked plan → (group function : ℕ) (work : FnKind)
        → HasFunction plan group function work
        → (row : Combined) (parts : List Value) (value : Value) → fold_of work parts ≡ Some value
        → chain plan group (pane_with row.key row.span parts)
        ≡ chain plan function (element_of row value) }
{}

/// Of folded rows the panes with their parts in order are plain grouping of all that was added.
pub fn folded_rows_have_plain_panes()
    ensures { (work : FnKind) (elements : List Element) (rows : List Combined)
        → AreFolds work (map added_of elements) rows
        → IsPlainGrouping elements (map (pane_of (map added_of elements)) rows) }
{}

/// Where all positions of a lifted plan were worked, and none was poison, and all rows of their folds went
/// on from the function, what arrived is what plain grouping brings to each Write.
pub fn what_was_combined_is_plain()
    ensures { (plan : Plan) → IsChecked plan → (files : List FileText)
        → (group function : ℕ) (work : FnKind) → IsLiftable plan
        → HasFunction plan group function work → (ranges : List Done)
        → IsSameBag (spread_dones plan (items files plan) ranges)
        (spread_all plan (items files plan))
        → (arrivals : List Arrival)
        → map Arrives arrivals ≡ spread_dones plan (items files plan) ranges
        → (rows : List Combined) → AreFolds work (added_by arrivals) rows
        → (written : List Arrival) → HasLasted plan function rows written
        → IsCombined plan (items files plan) group function work written }
{}

/// What ranges met that together bring what all positions do, the plan's input has at the Group: a part that
/// isn't taken, too many parts, a sum that leaves 64 bits, and poison of what was combined.
pub fn refusals_show_the_input()
    ensures part { (plan : Plan) → IsChecked plan → (files : List FileText)
        → (group function : ℕ) (work : FnKind) → IsLiftable plan
        → HasFunction plan group function work → (ranges : List Done)
        → IsSameBag (spread_dones plan (items files plan) ranges)
        (spread_all plan (items files plan))
        → list_any (is_untaken (takes_of work)) (spread_dones plan (items files plan) ranges)
        ≡ true
        → MeetsPart plan (items files plan) group work }
    ensures many { (plan : Plan) → IsChecked plan → (files : List FileText)
        → (group function : ℕ) (work : FnKind) → IsLiftable plan
        → HasFunction plan group function work → (ranges : List Done)
        → IsSameBag (spread_dones plan (items files plan) ranges)
        (spread_all plan (items files plan))
        → most_parts < count_by is_arrival (spread_dones plan (items files plan) ranges)
        → MeetsMany plan (items files plan) group }
    ensures sum { (plan : Plan) → IsChecked plan → (files : List FileText)
        → (group function : ℕ) (work : FnKind) → IsLiftable plan
        → HasFunction plan group function work → (ranges : List Done)
        → IsSameBag (spread_dones plan (items files plan) ranges)
        (spread_all plan (items files plan))
        → (arrivals : List Arrival)
        → map Arrives arrivals ≡ spread_dones plan (items files plan) ranges
        → (rows : List Combined) → AreFolds work (added_by arrivals) rows
        → ((key : Value) (span : Interval)
        → list_all (takes_of work) (parts_of key span (added_by arrivals)) ≡ true)
        → list_any (λ row. is_none row.value) rows ≡ true
        → MeetsSum plan (items files plan) group work }
    ensures poison { (plan : Plan) → IsChecked plan → (files : List FileText)
        → (group function : ℕ) (work : FnKind) → IsLiftable plan
        → HasFunction plan group function work → (ranges : List Done)
        → IsSameBag (spread_dones plan (items files plan) ranges)
        (spread_all plan (items files plan))
        → (arrivals : List Arrival)
        → map Arrives arrivals ≡ spread_dones plan (items files plan) ranges
        → (rows : List Combined) → AreFolds work (added_by arrivals) rows
        → (elements : List Element) (at : ℕ)
        → map combined_element rows ≡ map Some elements
        → All (λ element. IsStorable element.value) elements
        → first_poison (chains_of plan function elements) ≡ Some at
        → MeetsPoison plan (items files plan) group function work at }
{}
