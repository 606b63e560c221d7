//! What every step of key cells keeps. Each function does nothing: its contract is the law, from a fact
//! before and a step to the fact after it.

ghost use Rattle.std.specs.Prelude.{◌≡◌, ◌∷◌, [], ℕ, ◌<◌, ◌≤◌, ◌≤ℤ◌, ◌-◌, ◌++◌, ◌&&◌, Bool, true, false, List};
ghost use Rattle.std.specs.Prelude.{Option, Some, None, slice_get, slice_set, length, count_by};
ghost use Rattle.std.specs.List.{All, filter};
ghost use Rattle.beam_values.specs.Bags.{IsSameBag};
ghost use Rattle.beam_values.specs.Intervals.{Interval};
ghost use Rattle.beam_values.specs.Marks.{AreMarks, marks_at};
ghost use Rattle.beam_values.specs.Nodes.{is_stateful};
ghost use Rattle.beam_values.specs.Times.{final_mark};
ghost use Rattle.beam_values.specs.declared.arrival.Arrival.{Arrival};
ghost use Rattle.beam_values.specs.declared.marks.CommitMarks.{CommitMarks};
ghost use Rattle.beam_values.specs.declared.marks.StageMarks.{StageMarks};
ghost use Rattle.beam_values.specs.declared.plan.Node.{Node};
ghost use Rattle.beam_values.specs.declared.plan.Plan.{Plan};
ghost use Rattle.beam_values.specs.declared.value.Value.{Value};
ghost use Rattle.beam_model.specs.Flow.{log_chains};
ghost use Rattle.beam_model.specs.Holds.{least_hold};
ghost use Rattle.beam_model.specs.Logs.{AreLogsLegal, is_log_of};
ghost use Rattle.beam_model.specs.Panes.{mark_after};
ghost use Rattle.stateful_core.specs.Cells.{KeyCell, key_arrivals, key_holds, logs_of};
ghost use Rattle.stateful_core.specs.Data.{IsKeyFormed, cell_of_data, key_data_of};
ghost use Rattle.stateful_core.specs.Facts.{AreDoneOf, AreKeysKept, AreKeysSane, IsCellThrough, IsDoneOf, IsLiveAs};
ghost use Rattle.stateful_core.specs.Facts.{IsCellSane, Later, came_to, comes, folded_in};
ghost use Rattle.stateful_core.specs.Facts.{Folded};
ghost use Rattle.stateful_core.specs.KeyWork.{IsGivenOfKey, KeyCommit, entry_chains};
ghost use Rattle.stateful_core.specs.Working.{AreWorkedOnce};
ghost use Rattle.stateful_core.specs.Lasting.{AreAbove, arrival_holds, left_of};
ghost use Rattle.stateful_core.specs.Leaving.{AreLeftAs, IsOtherDone};
ghost use Rattle.stateful_core.specs.Opening.{IsPrepared, SeenKeys};
ghost use Rattle.stateful_core.specs.Placing.{Done, finish, place, with_done};
ghost use Rattle.stateful_core.specs.Staying.{IsStaying, StaysAt};
ghost use Rattle.stateful_core.specs.Taking.{change, inputs_of, is_free, is_ready, next_place, tried};
ghost use Rattle.stateful_core.specs.Taking.{turn_of, with_job};

/// Placing a commit, taking a job and giving it back keep what each key cell is, however its book came about.
pub fn steps_keep_sane_key_cells()
    ensures place { (plan : Plan) (commits others : List CommitMarks) (before : List StageMarks)
        (c : ℕ) (done : Option Done) (arrivals : List Arrival) (cells : List KeyCell)
        → Later commits others → AreDoneOf plan c cells done → AreKeysSane plan commits cells
        → AreKeysSane plan others (place plan before done arrivals cells) }
    ensures take { (plan : Plan) (commits : List CommitMarks) (marks : List StageMarks)
        (bundle at : ℕ) (cells : List KeyCell) (cell : KeyCell) → 1 ≤ bundle
        → ((node : ℕ) → (marks_at marks node).mark_in ≡ mark_after commits node (length commits - 1))
        → slice_get cells at ≡ Some cell → is_ready marks cell ≡ true
        → AreKeysSane plan commits cells
        → AreKeysSane plan commits (change (with_job bundle) at cells) }
    ensures give_back { (plan : Plan) (commits : List CommitMarks) (at : ℕ)
        (cells : List KeyCell) (cell : KeyCell) → slice_get cells at ≡ Some cell
        → AreKeysSane plan commits cells → AreKeysSane plan commits (change tried at cells) }
{}

/// The same steps keep how they came about, where a run made them.
pub fn steps_keep_key_cells()
    ensures place { (plan : Plan) (commits others : List CommitMarks) (before : List StageMarks)
        (done : Option Done) (arrivals : List Arrival) (cells : List KeyCell)
        → Later commits others → AreDoneOf plan (length commits) cells done
        → AreKeysKept plan commits cells
        → AreKeysKept plan others (place plan before done arrivals cells) }
    ensures take { (plan : Plan) (commits : List CommitMarks) (marks : List StageMarks)
        (bundle at : ℕ) (cells : List KeyCell) (cell : KeyCell) → 1 ≤ bundle
        → ((node : ℕ) → (marks_at marks node).mark_in ≡ mark_after commits node (length commits - 1))
        → slice_get cells at ≡ Some cell → is_ready marks cell ≡ true
        → AreKeysKept plan commits cells
        → AreKeysKept plan commits (change (with_job bundle) at cells) }
    ensures give_back { (plan : Plan) (commits : List CommitMarks) (at : ℕ)
        (cells : List KeyCell) (cell : KeyCell) → slice_get cells at ≡ Some cell
        → AreKeysKept plan commits cells → AreKeysKept plan commits (change tried at cells) }
{}

/// One commit more, whose marks are no lower.
pub fn commits_go_on()
    ensures { (commits : List CommitMarks) (marks : List StageMarks) → 1 ≤ length commits
        → ((node : ℕ) → mark_after commits node (length commits - 1)
        ≤ℤ (marks_at marks node).mark_in)
        → Later commits (commits ++ (record { marks = marks }) ∷ []) }
{}

/// Taking a job and giving it back change neither logs, nor what came, nor what holds, nor what is left.
pub fn takes_and_fails_leave_what_came()
    ensures take { (bundle at : ℕ) (cells : List KeyCell)
        → AreLeftAs cells (change (with_job bundle) at cells) }
    ensures give_back { (at : ℕ) (cells : List KeyCell)
        → AreLeftAs cells (change tried at cells) }
{}

/// Each live cell is worked by one slot, and each slot works one cell at most: `slots` has of each slot the
/// number of the cell that it works, if any.
pub fn each_live_cell_is_worked_by_one_slot()
    ensures enroll { (slots : List (List ℕ)) (cells : List KeyCell)
        → AreWorkedOnce (λ keys. keys) slots cells
        → AreWorkedOnce (λ keys. keys) (slots ++ [] ∷ []) cells }
    ensures take { (slots : List (List ℕ)) (cells : List KeyCell) (slot at bundle : ℕ)
        (cell : KeyCell) → AreWorkedOnce (λ keys. keys) slots cells
        → slice_get slots slot ≡ Some [] → slice_get cells at ≡ Some cell → is_free cell ≡ true
        → AreWorkedOnce (λ keys. keys) (slice_set slots slot (at ∷ []))
        (change (with_job bundle) at cells) }
    ensures give_back { (slots : List (List ℕ)) (cells : List KeyCell) (slot at : ℕ)
        (cell : KeyCell) → AreWorkedOnce (λ keys. keys) slots cells
        → slice_get slots slot ≡ Some (at ∷ []) → slice_get cells at ≡ Some cell
        → AreWorkedOnce (λ keys. keys) (slice_set slots slot []) (change tried at cells) }
    ensures place { (plan : Plan) (before : List StageMarks) (done : Done)
        (arrivals : List Arrival) (slots : List (List ℕ)) (cells : List KeyCell) (slot : ℕ)
        (cell : KeyCell) → AreWorkedOnce (λ keys. keys) slots cells
        → slice_get slots slot ≡ Some (done.cell ∷ []) → slice_get cells done.cell ≡ Some cell
        → AreWorkedOnce (λ keys. keys) (slice_set slots slot [])
        (place plan before (Some done) arrivals cells) }
    ensures other { (plan : Plan) (before : List StageMarks) (arrivals : List Arrival)
        (slots : List (List ℕ)) (cells : List KeyCell) (slot : ℕ) (keys : List ℕ)
        → AreWorkedOnce (λ keys. keys) slots cells → slice_get slots slot ≡ Some keys
        → AreWorkedOnce (λ keys. keys) (slice_set slots slot keys)
        (place plan before None arrivals cells) }
{}

/// What comes to other nodes may be left out of a commit, also after it was prepared.
pub fn what_comes_to_other_nodes_may_be_left_out()
    ensures prepared { (plan : Plan) (passes : Arrival → Bool)
        → ((arrival : Arrival) → passes arrival ≡ false → is_stateful plan arrival.node ≡ false)
        → (done : Option Done) (arrivals : List Arrival) (keys : SeenKeys)
        → IsPrepared plan done arrivals keys → IsPrepared plan done (filter passes arrivals) keys }
    ensures placed { (plan : Plan) (passes : Arrival → Bool)
        → ((arrival : Arrival) → passes arrival ≡ false → is_stateful plan arrival.node ≡ false)
        → (before : List StageMarks) (done : Option Done) (arrivals : List Arrival)
        (cells : List KeyCell) → place plan before done (filter passes arrivals) cells
        ≡ place plan before done arrivals cells }
{}

/// Where nothing waits and no timer is set, the logs are legal.
pub fn ended_key_cells_have_legal_logs()
    ensures { (plan : Plan) (commits : List CommitMarks) (cells : List KeyCell)
        → All (λ commit. length commit.marks ≡ length plan.nodes) commits
        → AreKeysKept plan commits cells → All IsCellThrough cells
        → AreLogsLegal plan commits (logs_of cells) }
{}

/// Log, live inputs and waiting elements together are a cell's arrivals in order, each once.
pub fn arrivals_come_once_and_in_order()
    ensures bag { (plan : Plan) (c : ℕ) (before : List StageMarks) (done : Option Done)
        (arrivals : List Arrival) (cells : List KeyCell) → AreDoneOf plan c cells done
        → IsSameBag (key_arrivals (place plan before done arrivals cells))
        (key_arrivals cells ++ filter (λ a. is_stateful plan a.node) arrivals) }
    ensures order { (plan : Plan) (before : List StageMarks) (node : ℕ) (key : Value)
        (span : Interval) (c : ℕ) (done : Option Done) (arrivals : List Arrival)
        (cells : List KeyCell) → AreDoneOf plan c cells done
        → count_by (is_log_of node key span) (logs_of cells) ≤ 1
        → came_to node key span (place plan before done arrivals cells)
        ≡ came_to node key span cells ++ filter (comes plan node key span) arrivals }
{}

/// No hold of key cells lies below the mark after its node, what arrives adds its holds, and a job that is
/// done lowers what is left.
pub fn holds_and_what_is_left()
    ensures holds { (before : List StageMarks) (plan : Plan) (done : Option Done)
        (arrivals : List Arrival) (cells : List KeyCell) → AreAbove before (key_holds cells)
        → AreAbove before (key_holds (place plan before done arrivals cells)) }
    ensures added { (plan : Plan) (before : List StageMarks) (done : Option Done)
        (arrivals : List Arrival) (cells : List KeyCell)
        → IsSameBag (key_holds (place plan before done arrivals cells))
        (key_holds (finish before done cells) ++ arrival_holds plan before arrivals) }
    ensures left { (plan : Plan) (commits : List CommitMarks) (before : List StageMarks)
        (cell : KeyCell) (done : Done) (c count : ℕ) → IsCellSane plan commits cell
        → cell.live ≡ Some count
        → folded_in (slice_get plan.nodes cell.log.node) cell.log.key cell.log.span c cell.kept
        (inputs_of cell count) ≡ Some (record { kept = done.kept; entries = done.entries })
        → left_of (with_done before done cell) < left_of cell }
{}

/// Where no cell is ready or worked, and nothing but key cells holds a node back, nothing waits and no timer
/// is set, and no mark but FINAL is left.
pub fn no_ready_cell_leaves_nothing()
    ensures through { (plan : Plan) (commits : List CommitMarks) (marks : List StageMarks)
        (cells : List KeyCell) → AreKeysSane plan commits cells
        → ((n : ℕ) (node : Node) → slice_get plan.nodes n ≡ Some node
        → All (λ input. input < n) node.inputs)
        → AreMarks plan (least_hold (key_holds cells)) marks → All (λ c. is_free c ≡ true) cells
        → next_place marks cells ≡ None → All IsCellThrough cells }
    ensures marks { (plan : Plan) (commits : List CommitMarks) (marks : List StageMarks)
        (cells : List KeyCell) → AreKeysSane plan commits cells
        → ((n : ℕ) (node : Node) → slice_get plan.nodes n ≡ Some node
        → All (λ input. input < n) node.inputs)
        → AreMarks plan (least_hold (key_holds cells)) marks → All (λ c. is_free c ≡ true) cells
        → next_place marks cells ≡ None → (n : ℕ) → n < length plan.nodes
        → (marks_at marks n).mark_out ≡ final_mark }
{}

/// A job stays what it is while it is worked, whatever other jobs are taken, given back or committed.
pub fn a_live_job_stays()
    ensures place { (plan : Plan) (before : List StageMarks) (done : Option Done)
        (arrivals : List Arrival) (cells : List KeyCell) (at : ℕ) (cell : KeyCell)
        → IsOtherDone done at → slice_get cells at ≡ Some cell
        → StaysAt at cell (place plan before done arrivals cells) }
    ensures take { (bundle i at : ℕ) (cells : List KeyCell) (cell : KeyCell) → (at ≡ i → ⊥)
        → slice_get cells at ≡ Some cell → StaysAt at cell (change (with_job bundle) i cells) }
    ensures give_back { (i at : ℕ) (cells : List KeyCell) (cell : KeyCell) → (at ≡ i → ⊥)
        → slice_get cells at ≡ Some cell → StaysAt at cell (change tried i cells) }
    ensures job { (commits : List CommitMarks) (at count : ℕ) (old new : KeyCell)
        → IsStaying old new → IsLiveAs commits old (Some count)
        → turn_of at new count ≡ turn_of at old count }
{}

/// A receipt of a slot's key job is placed as the fold over its cell's live inputs, and its arrivals are the
/// chains of the outputs that are logged.
pub fn receipts_of_key_jobs_are_placed()
    ensures { (plan : Plan) (commits : List CommitMarks) (cells : List KeyCell)
        (slots : List (List ℕ)) (slot at c : ℕ) (x : List ℕ) (arrivals : List Arrival)
        (logged : Option Folded) → AreKeysSane plan commits cells
        → AreWorkedOnce (λ keys. keys) slots cells → slice_get slots slot ≡ Some x → x ≡ at ∷ []
        → ((cell : KeyCell) (count : ℕ) → slice_get cells at ≡ Some cell → cell.live ≡ Some count
        → IsGivenOfKey plan cell.log.node cell.log.key cell.log.span (inputs_of cell count)
        cell.kept arrivals logged)
        → KeyCommit plan c cells at arrivals logged }
{}

/// Before the node of a key job, and at any node that nothing arrives at, the least hold stays.
pub fn other_nodes_are_held_as_before()
    ensures { (plan : Plan) (before : List StageMarks) (done : Done) (arrivals : List Arrival)
        (cells : List KeyCell) (cell : KeyCell) (m : ℕ) → slice_get cells done.cell ≡ Some cell
        → (cell.log.node ≡ m → ⊥) → All (λ a. a.node ≡ m → ⊥) arrivals
        → least_hold (key_holds (place plan before (Some done) arrivals cells)) m
        ≡ least_hold (key_holds cells) m }
{}

/// What the logs bring to the flow grows by the chains of a commit's entries alone.
pub fn logs_bring_the_chains_of_their_entries()
    ensures other { (plan : Plan) (before : List StageMarks) (arrivals : List Arrival)
        (cells : List KeyCell)
        → log_chains plan (logs_of (place plan before None arrivals cells))
        ≡ log_chains plan (logs_of cells) }
    ensures done { (plan : Plan) (before : List StageMarks) (done : Done) (arrivals : List Arrival)
        (cells : List KeyCell) (cell : KeyCell) → slice_get cells done.cell ≡ Some cell
        → IsSameBag (log_chains plan (logs_of (place plan before (Some done) arrivals cells)))
        (log_chains plan (logs_of cells) ++ entry_chains plan cell.log.node done.entries) }
{}

/// The data of a sane cell, of which no job is worked, stands for that cell.
pub fn data_stands_for_its_cell()
    ensures formed { (plan : Plan) (commits : List CommitMarks) (cell : KeyCell)
        → IsCellSane plan commits cell → IsKeyFormed (key_data_of cell) }
    ensures back { (plan : Plan) (commits : List CommitMarks) (cell : KeyCell)
        → IsCellSane plan commits cell → cell.live ≡ None
        → cell_of_data (key_data_of cell) ≡ cell }
{}
