//! What rounds mean over whole runs. Each function does nothing: its contract is the law.

ghost use Rattle.std.specs.Prelude.{◌≡◌, ◌+◌, ◌++◌, ◌∷◌, [], ℕ, true, List, length, map};
ghost use Rattle.std.specs.List.{All, filter};
ghost use Rattle.beam_values.specs.Bags.{IsSameBag};
ghost use Rattle.beam_values.specs.Checked.{IsChecked};
ghost use Rattle.beam_values.specs.declared.arrival.Arrival.{Arrival};
ghost use Rattle.beam_values.specs.declared.cell.Cell.{Cell};
ghost use Rattle.beam_values.specs.declared.cell.Pane.{Pane};
ghost use Rattle.beam_values.specs.declared.marks.CommitMarks.{CommitMarks};
ghost use Rattle.beam_values.specs.declared.marks.StageMarks.{StageMarks};
ghost use Rattle.beam_values.specs.declared.plan.Plan.{Plan};
ghost use Rattle.beam_values.specs.declared.value.Value.{Value};
ghost use Rattle.beam_values.specs.Marks.{marks_at};
ghost use Rattle.beam_values.specs.Nodes.{is_group};
ghost use Rattle.beam_model.specs.Panes.{ArePanesLegal, IsKeyed, taken_by};
ghost use Rattle.group_cells.specs.Commits.{SeenGroups, AreRounds, HasGap, HaveGaps, KeepsLegal};
ghost use Rattle.group_cells.specs.Commits.{NeverFalls, NoneFalls, as_commit, dropped_arrival};
ghost use Rattle.group_cells.specs.Commits.{cells_keyed, is_dropped, is_taken, taken_arrival};
ghost use Rattle.group_cells.specs.Sane.{ArePanesCounted, AreOpenApart, AreSaneCells};
ghost use Rattle.group_cells.specs.Sane.{FiresNoMore, HaveOneCell, HaveTakers};

/// A commit that goes by rounds, and drops what comes too late, keeps what is legal.
pub fn rounds_keep_what_is_legal()
    ensures { (plan : Plan) (c : ℕ) (before after : List StageMarks)
        (arrivals : List Arrival) (old new : SeenGroups) (fired : List Pane)
        → IsChecked plan → length before ≡ length plan.nodes → length after ≡ length plan.nodes
        → All (HasGap plan) arrivals
        → new.dropped
        ≡ old.dropped ++ map (dropped_arrival c) (filter (is_dropped plan before) arrivals)
        → AreRounds plan c before after arrivals old.cells new.cells fired
        → KeepsLegal plan c before after old new fired }
{}

/// Rounds lose no entry and no arrival in time: all of them are entries now, in whichever cells.
pub fn rounds_keep_all_entries()
    ensures { (plan : Plan) (c : ℕ) (before after : List StageMarks)
        (arrivals : List Arrival) (cells new : List Cell) (fired : List Pane)
        → All IsKeyed cells → All (λ cell. is_group plan cell.node ≡ true) cells
        → AreRounds plan c before after arrivals cells new fired
        → IsSameBag (taken_by new)
        (taken_by cells ++ map (taken_arrival c) (filter (is_taken plan before) arrivals)) }
{}

/// Rounds keep that the entries of each cell have its key.
pub fn rounds_keep_keys()
    ensures { (plan : Plan) (c : ℕ) (before after : List StageMarks)
        (arrivals : List Arrival) (cells new : List Cell) (fired : List Pane)
        → All IsKeyed cells → AreRounds plan c before after arrivals cells new fired
        → All IsKeyed new }
{}

/// After rounds no cell would fire again at the marks into the Groups.
pub fn rounds_settle()
    ensures { (plan : Plan) (c : ℕ) (before after : List StageMarks)
        (arrivals : List Arrival) (cells new : List Cell) (fired : List Pane)
        → IsChecked plan → AreRounds plan c before after arrivals cells new fired
        → All (FiresNoMore plan after) new }
{}

/// Rounds keep the windows that can still merge apart.
pub fn rounds_keep_apart()
    ensures { (plan : Plan) (c : ℕ) (before after : List StageMarks)
        (arrivals : List Arrival) (cells new : List Cell) (fired : List Pane)
        → AreOpenApart plan before cells → NoneFalls before after
        → AreRounds plan c before after arrivals cells new fired
        → AreOpenApart plan after new }
{}

/// Rounds keep each cell that was merged in one that stands.
pub fn rounds_keep_takers()
    ensures { (plan : Plan) (c : ℕ) (before after : List StageMarks)
        (arrivals : List Arrival) (cells new : List Cell) (fired : List Pane)
        → HaveTakers plan cells → AreRounds plan c before after arrivals cells new fired
        → HaveTakers plan new }
{}

/// Rounds make no second cell for a window, whether that stands or was merged.
pub fn rounds_keep_cells_once()
    ensures { (plan : Plan) (c : ℕ) (before after : List StageMarks)
        (arrivals : List Arrival) (cells new : List Cell) (fired : List Pane)
        → HaveOneCell plan cells → HaveTakers plan cells
        → AreRounds plan c before after arrivals cells new fired → HaveOneCell plan new }
{}

/// Rounds keep all that the next ones ask of the cells.
pub fn rounds_keep_cells_sane()
    ensures { (plan : Plan) (c : ℕ) (before after : List StageMarks)
        (arrivals : List Arrival) (cells new : List Cell) (fired : List Pane)
        → IsChecked plan → NoneFalls before after → AreSaneCells plan before cells
        → AreRounds plan c before after arrivals cells new fired → AreSaneCells plan after new }
{}

/// No cells at all are as they are to be, at any marks.
pub fn no_cells_are_sane()
    ensures { (plan : Plan) (marks : List StageMarks) → AreSaneCells plan marks [] }
{}

/// A cell counts at most a pane more for each that is fired.
pub fn rounds_count_panes()
    ensures { (plan : Plan) (c : ℕ) (before after : List StageMarks)
        (arrivals : List Arrival) (cells new : List Cell) (fired : List Pane) (most : ℕ)
        → ArePanesCounted most cells → AreRounds plan c before after arrivals cells new fired
        → ArePanesCounted (most + length fired) new }
{}

/// Where nothing arrives at a Group and the mark into it stays, no pane of it fires and its cells stay.
pub fn quiet_rounds_change_nothing()
    ensures { (plan : Plan) (c : ℕ) (before after : List StageMarks)
        (arrivals : List Arrival) (cells new : List Cell) (fired : List Pane) (node : ℕ)
        → is_group plan node ≡ true → AreSaneCells plan before cells
        → All (λ arrival. arrival.node ≡ node → ⊥) arrivals
        → (marks_at before node).mark_in ≡ (marks_at after node).mark_in
        → AreRounds plan c before after arrivals cells new fired
        → All (λ pane. pane.node ≡ node → ⊥) fired
        × ((key : Value) → cells_keyed node key new ≡ cells_keyed node key cells) }
{}

/// Nothing at all is legal after the opening, from which the first commit goes on.
pub fn nothing_is_legal()
    ensures { (plan : Plan) (opening : CommitMarks) → length opening.marks ≡ length plan.nodes
        → ArePanesLegal plan (opening ∷ []) [] [] [] }
{}

/// What sessions took keeps own windows of the gap's length, where the arrivals have them.
pub fn rounds_keep_gaps()
    ensures { (plan : Plan) (c : ℕ) (before : List StageMarks)
        (arrivals : List Arrival) (cells new : List Cell)
        → IsSameBag (taken_by new)
        (taken_by cells ++ map (taken_arrival c) (filter (is_taken plan before) arrivals))
        → HaveGaps plan (taken_by cells)
        → All (HasGap plan) arrivals → HaveGaps plan (taken_by new) }
{}

/// Marks that never fall go on so with a commit at which none falls.
pub fn marks_go_on()
    ensures { (earlier : List CommitMarks) (before after : List StageMarks)
        → NeverFalls (earlier ++ as_commit before ∷ []) → NoneFalls before after
        → NeverFalls ((earlier ++ as_commit before ∷ []) ++ as_commit after ∷ []) }
{}
