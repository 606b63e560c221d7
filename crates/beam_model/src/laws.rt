//! What the definitions mean to a reader. Each function does nothing: its contract is the law.

ghost use Rattle.std.specs.Prelude.{◌≡◌, ◌⊎◌, ℕ, ◌+◌, ◌<◌, ◌≤◌, ◌≤ℤ◌, ◌==◌, ◌||◌, true, List, []};
ghost use Rattle.std.specs.Prelude.{◌∷◌, ◌++◌, Some, length, slice_get};
ghost use Rattle.std.specs.Option.{option_map};
ghost use Rattle.std.specs.List.{All, AllPairs, count_by, list_any};
ghost use Rattle.std.specs.List.Sorted.{IsSorted};
ghost use Rattle.beam_values.specs.Bags.{IsSameBag};
ghost use Rattle.beam_values.specs.Cover.{Place, times_done};
ghost use Rattle.beam_values.specs.Grouping.{key_of, is_in_cell, IsPlainGrouping};
ghost use Rattle.beam_values.specs.Intervals.{Interval};
ghost use Rattle.beam_values.specs.Orders.{value_cmp};
ghost use Rattle.beam_values.specs.Times.{greatest_time};
ghost use Rattle.beam_values.specs.Nodes.{is_above};
ghost use Rattle.beam_values.specs.Storable.{IsStorable};
ghost use Rattle.beam_values.specs.declared.element.Element.{Element};
ghost use Rattle.beam_values.specs.declared.arrival.Arrival.{Arrival};
ghost use Rattle.beam_values.specs.declared.piece.Done.{Done};
ghost use Rattle.beam_values.specs.declared.log.KeyLog.{KeyLog};
ghost use Rattle.beam_values.specs.declared.log.LogInput.{LogInput};
ghost use Rattle.beam_values.specs.declared.cell.Pane.{Pane};
ghost use Rattle.beam_values.specs.declared.outcome.Outcome.{Outcome};
ghost use Rattle.beam_values.specs.declared.plan.Args.{Args};
ghost use Rattle.beam_values.specs.declared.plan.FnKind.{FnKind};
ghost use Rattle.beam_values.specs.declared.plan.Node.{Node};
ghost use Rattle.beam_values.specs.declared.plan.Plan.{Plan};
ghost use Rattle.beam_values.specs.declared.plan.SourceKind.{SourceKind};
ghost use Rattle.beam_values.specs.declared.plan.StateKind.{StateKind};
ghost use Rattle.beam_values.specs.declared.value.Value.{Value};
ghost use Rattle.beam_model.specs.Chains.{chain};
ghost use Rattle.beam_model.specs.Flow.{elements_at, pane_chains, log_chains, flow};
ghost use Rattle.beam_model.specs.Functions.{emits, fold_of, folds, one};
ghost use Rattle.beam_model.specs.Values.{pair, seq};
ghost use Rattle.beam_values.specs.Sessions.{IsNonEmpty};
ghost use Rattle.beam_model.specs.Premises.{EndsAfter, done_range, KeepsPlace, IsForward, IsOfCall};
ghost use Rattle.beam_model.specs.Premises.{AreOneOrApart};
ghost use Rattle.beam_model.specs.Plain.{ArePlainlyWritten, ArePlainlyWrittenWhere, IsPlainRun};
ghost use Rattle.beam_model.specs.Plain.{IsPlainAt, node_of};
ghost use Rattle.beam_model.specs.Positions.{nothing, positions_in, emission, next_position};
ghost use Rattle.beam_model.specs.Positions.{SourceItem};
ghost use Rattle.beam_values.specs.Sessions.{IsApart, IsSession};
ghost use Rattle.beam_model.specs.Sessions.{IsMerging};
ghost use Rattle.beam_model.specs.Reach.{ReachesBarrier};
ghost use Rattle.beam_model.specs.Spread.{outputs_at, spread_range, spread_all};
ghost use Rattle.beam_values.specs.States.{KeptState};
ghost use Rattle.beam_model.specs.Functions.{ascending};
ghost use Rattle.beam_model.specs.Steps.{Stepped, steps};

/// Between a position and the one that is worked after it nothing is emitted, and nothing is poison.
pub fn positions_between_give_nothing()
    ensures { (kind : SourceKind) (args : Args) (file : List ℕ) (p q : ℕ)
        → p < q → q < next_position kind file p → emission kind args file q ≡ nothing }
{}

/// The position that is worked after one lies above it, and at most at the end of its item.
pub fn next_positions_rise()
    ensures { (kind : SourceKind) (args : Args) (file : List ℕ) (p : ℕ)
        → p < positions_in kind args file
        → (p < next_position kind file p)
        × (next_position kind file p ≤ positions_in kind args file) }
{}

/// A range of positions brings what its parts bring, one after the other, wherever it is cut: also
/// inside a line.
pub fn spreads_join()
    ensures { (plan : Plan) (item : SourceItem) (from middle to : ℕ) → from ≤ middle → middle ≤ to
        → spread_range plan item from to
        ≡ spread_range plan item from middle ++ spread_range plan item middle to }
{}

/// A range brings what its first position does, and then what the range from the next position on does.
pub fn a_spread_steps_over_positions()
    ensures { (plan : Plan) (item : SourceItem) (p to : ℕ) → p < to
        → spread_range plan item p to
        ≡ outputs_at plan item p
        ++ spread_range plan item (next_position item.work item.file p) to }
{}

/// What comes of an output of a node ends at a later node of the plan: at a Group, a Stateful node or a
/// Write, or at a ParDo that finds it to be poison.
pub fn chains_end_at_barriers()
    ensures { (plan : Plan) (n : ℕ) (e : Element) → All (EndsAfter plan n) (chain plan n e) }
{}

/// What more panes, items or logs bring is added to the flow of a run, and changes nothing else of it.
pub fn flows_add()
    ensures panes { (plan : Plan) (items : List SourceItem)
        (panes more : List Pane) (logs : List KeyLog)
        → IsSameBag (flow plan items (panes ++ more) logs)
        (flow plan items panes logs ++ pane_chains plan more) }
    ensures items { (plan : Plan) (items more : List SourceItem)
        (panes : List Pane) (logs : List KeyLog)
        → IsSameBag (flow plan (items ++ more) panes logs)
        (flow plan items panes logs ++ spread_all plan more) }
    ensures logs { (plan : Plan) (items : List SourceItem)
        (panes : List Pane) (logs more : List KeyLog)
        → IsSameBag (flow plan items panes (logs ++ more))
        (flow plan items panes logs ++ log_chains plan more) }
{}

/// Two lists of committed ranges hold a place as often as both together.
pub fn covers_append()
    ensures { (a b : List Done) (place : Place)
        → times_done (a ++ b) place ≡ times_done a place + times_done b place }
{}

/// The two parts of a committed range hold each place as often as the range does.
pub fn a_cut_range_covers_the_same()
    ensures { (node item from middle to : ℕ) (place : Place) → from ≤ middle → middle ≤ to
        → times_done (done_range node item from to ∷ []) place
        ≡ times_done
        (done_range node item from middle ∷ done_range node item middle to ∷ []) place }
{}

/// What a function gives of an element is in its window, with its pane's tag, never before it, and at no
/// later time than there is.
pub fn functions_keep_window_and_pane()
    ensures { (kind : FnKind) (args : Args) (e : Element) (outputs : List Element)
        → e.time ≤ℤ greatest_time → IsForward kind args → emits kind args e ≡ Some outputs
        → All (KeepsPlace e) outputs }
{}

/// What a function of sequences gives of a pane is the fold of the pane's parts under its key, and it is
/// poison exactly where there is no fold.
#[tactic(auto, using(crate::proofs::Folds::folded))]
pub fn panes_are_folded()
    ensures { (kind : FnKind) (args : Args) (e : Element) (key : Value) (parts : List Value)
        → folds kind ≡ true → e.value ≡ pair key (seq parts)
        → emits kind args e ≡ option_map (λ v. one e (pair key v)) (fold_of kind parts) }
{}

/// What a stateful call gives is in the window and at the time of the element or the timer that it is on.
pub fn stateful_outputs_keep_their_window()
    ensures { (kind : StateKind) (args : Args) (key : Value) (span : Interval)
        (input : LogInput) (kept : KeptState) (after : Stepped)
        → steps kind args key span input kept ≡ Some after
        → All (IsOfCall span input) after.outputs }
{}

/// The values of a batch are put in order, and none is lost or added.
pub fn ascending_is_sorted()
    ensures sorted { (values : List Value) → IsSorted value_cmp (ascending values) }
    ensures same { (values : List Value) → IsSameBag (ascending values) values }
{}

/// Plain grouping gives at most one pane of each key and window, and none without an element.
pub fn plain_groupings_have_each_cell_once()
    ensures once { (elements panes : List Element) (key : Value) (span : Interval)
        → IsPlainGrouping elements panes → count_by (is_in_cell key span) panes ≤ 1 }
    ensures held { (elements panes : List Element) → IsPlainGrouping elements panes
        → All (λ pane. 1 ≤ count_by (is_in_cell (key_of pane) pane.span) elements) panes }
{}

/// Plain grouping is a function of the bag: groupings of one bag of elements have one bag of panes, in
/// whatever order the elements came.
pub fn plain_groupings_agree()
    ensures { (elements others panes more : List Element) → IsSameBag elements others
        → IsPlainGrouping elements panes → IsPlainGrouping others more
        → All (λ pane. IsStorable pane.value) panes → All (λ pane. IsStorable pane.value) more
        → IsSameBag panes more }
{}

/// Two sessions of the same windows are one, or they don't overlap.
pub fn sessions_are_apart()
    ensures { (spans : List Interval) (a b : Interval)
        → IsSession spans a → IsSession spans b → (a ≡ b) ⊎ IsApart a b }
{}

/// Merging leaves no two windows of a key that overlap, unless they are the same.
pub fn merged_windows_are_apart()
    ensures { (elements sessioned : List Element) (key : Value)
        → IsMerging elements sessioned → AllPairs (AreOneOrApart key) sessioned }
{}

/// Merging is a function of the bag: mergings of one bag of elements, none of whose windows is empty, give
/// one bag.
pub fn mergings_agree()
    ensures { (elements others merged more : List Element)
        → IsSameBag elements others → All (λ e. IsNonEmpty e.span) elements
        → IsMerging elements merged → IsMerging others more → IsSameBag merged more }
{}

/// At the end of an item and past it nothing is emitted, and nothing is poison.
pub fn positions_past_the_end_give_nothing()
    ensures { (kind : SourceKind) (args : Args) (file : List ℕ) (p : ℕ)
        → positions_in kind args file ≤ p → emission kind args file p ≡ nothing }
{}

/// A pipeline means one thing: in two plain runs of one plan over the same items, up to one barrier, the
/// same elements arrive at each node, and each Group puts out the same panes.
pub fn plain_runs_agree()
    ensures arrived { (plan : Plan) (items : List SourceItem)
        (barrier : ℕ) (arrivals panes others more : List Arrival)
        → IsPlainRun plan items barrier arrivals panes → IsPlainRun plan items barrier others more
        → (node : ℕ) → IsSameBag (elements_at node arrivals) (elements_at node others) }
    ensures put_out { (plan : Plan) (items : List SourceItem)
        (barrier : ℕ) (arrivals panes others more : List Arrival)
        → IsPlainRun plan items barrier arrivals panes → IsPlainRun plan items barrier others more
        → (node : ℕ) → IsSameBag (elements_at node panes) (elements_at node more) }
{}

/// What plain grouping brings to a barrier is one bag.
pub fn plain_grouping_at_a_barrier_is_one_bag()
    ensures { (plan : Plan) (items : List SourceItem) (barrier : ℕ) (elements others : List Element)
        → IsPlainAt plan items barrier elements
        → IsPlainAt plan items barrier others → IsSameBag elements others }
{}

/// A node stands above another exactly where that one takes it as an input, or an input of it stands
/// below it. Inputs are lower than their node.
pub fn nodes_stand_above_by_inputs()
    ensures { (plan : Plan) (upper n : ℕ) (node : Node)
        → slice_get plan.nodes n ≡ Some node → All (λ input. input < n) node.inputs
        → is_above plan upper n
        ≡ list_any (λ input. input == upper || is_above plan upper input) node.inputs }
{}

/// What an output of a node brings ends below that node.
pub fn outputs_end_below_their_node()
    ensures { (plan : Plan) (n : ℕ) (e : Element)
        → All (λ output. is_above plan n (node_of output) ≡ true) (chain plan n e) }
{}

/// What an output of a node brings is poison, or arrives at a barrier that the node reaches.
#[tactic(auto, using(crate::proofs::BarrierReach::chain_reaches))]
pub fn outputs_reach_barriers()
    ensures { (plan : Plan) (n : ℕ) (e : Element) → n < length plan.nodes
        → All (ReachesBarrier plan n) (chain plan n e) }
{}

/// What is plainly written under any triggers and estimators is so in particular under default triggers
/// and sound estimators.
pub fn plain_writing_needs_no_sound_estimators()
    ensures { (items : List SourceItem) (o : Outcome)
        → ArePlainlyWritten items o → ArePlainlyWrittenWhere items o }
{}
