//! What follows of a checked plan. Each function does nothing: its contract is the law.

ghost use Rattle.std.specs.Prelude.{◌≡◌, ℕ, ◌<◌, ◌≤◌, ◌==◌, true, false, if◌then◌else◌, length};
ghost use Rattle.std.specs.Prelude.{slice_get, Some, All};
ghost use Rattle.std.specs.List.{Any, Contains, count_by, flat_map};
ghost use Rattle.std.specs.List.Sorted.{IsNonDecreasing};
ghost use Rattle.beam_values.specs.Checked.{IsChecked, file_count, is_function_allowed};
ghost use Rattle.beam_values.specs.Checked.{is_session};
ghost use Rattle.beam_values.specs.Nodes.{below_group, is_group_kind};
ghost use Rattle.beam_values.specs.Nodes.{is_stateful, is_write, is_write_kind, onward_of};
ghost use Rattle.beam_values.specs.Nodes.{strategy_of};
ghost use Rattle.beam_values.specs.Strategies.{IsAllowed};
ghost use Rattle.beam_values.specs.declared.element.Element.{Element};
ghost use Rattle.beam_values.specs.declared.plan.Args.{Args};
ghost use Rattle.beam_values.specs.declared.plan.FnKind.{FnKind};
ghost use Rattle.beam_values.specs.declared.plan.Node.{Node};
ghost use Rattle.beam_values.specs.declared.plan.Plan.{Plan};
ghost use Rattle.beam_model.specs.Chains.{chain};
ghost use Rattle.beam_model.specs.Premises.{IsForward};
ghost use Rattle.pipeline_graph.specs.Followers.{followers_of};
ghost use Rattle.pipeline_graph.specs.Rules.{HasInputs, HasOwnStrategy, HasSettings};
ghost use Rattle.pipeline_graph.specs.Rules.{is_window_into_kind};
ghost use Rattle.pipeline_graph.specs.Taking.{taken_by};

/// A pipeline has 1 to 64 nodes, of which one is a Write, and its sources read at most 256 files together.
pub fn plans_are_small_and_write_something()
    ensures nodes { (plan : Plan) → IsChecked plan
        → (1 ≤ length plan.nodes) × (length plan.nodes ≤ 64) }
    ensures write { (plan : Plan) → IsChecked plan
        → Any (λ node. is_write_kind node.kind ≡ true) plan.nodes }
    ensures files { (plan : Plan) → IsChecked plan → file_count plan.nodes ≤ 256 }
{}

/// The inputs of a node are lower than it, and none of them is a Write.
pub fn inputs_are_lower_and_put_something_out()
    ensures lower { (plan : Plan) (n : ℕ) (node : Node)
        → IsChecked plan → slice_get plan.nodes n ≡ Some node
        → All (λ input. input < n) node.inputs }
    ensures no_writes { (plan : Plan) (n : ℕ) (node : Node)
        → IsChecked plan → slice_get plan.nodes n ≡ Some node
        → All (λ input. is_write plan input ≡ false) node.inputs }
{}

/// A node has as many inputs as its kind takes, and settings that its kind allows.
pub fn nodes_have_inputs_and_settings_of_their_kind()
    ensures inputs { (plan : Plan) (n : ℕ) (node : Node)
        → IsChecked plan → slice_get plan.nodes n ≡ Some node
        → HasInputs node.kind (length node.inputs) }
    ensures settings { (plan : Plan) (n : ℕ) (node : Node)
        → IsChecked plan → slice_get plan.nodes n ≡ Some node
        → HasSettings node.kind }
{}

/// A function that is allowed its argument gives nothing before the element that it is on.
pub fn allowed_functions_go_forward()
    ensures { (work : FnKind) (args : Args)
        → is_function_allowed work args ≡ true → IsForward work args }
{}

/// The windows of a Stateful node never merge: none has sessions.
pub fn stateful_nodes_have_no_sessions()
    ensures { (plan : Plan) (n : ℕ) → IsChecked plan → is_stateful plan n ≡ true
        → is_session (strategy_of plan n) ≡ false }
{}

/// A node takes elements of its own strategy, unless it is a WindowInto; each strategy is an allowed one.
pub fn nodes_take_elements_of_their_strategy()
    ensures inputs { (plan : Plan) (n : ℕ) (node : Node)
        → IsChecked plan → slice_get plan.nodes n ≡ Some node
        → is_window_into_kind node.kind ≡ false
        → All (λ input. onward_of plan input ≡ strategy_of plan n) node.inputs }
    ensures allowed { (plan : Plan) (n : ℕ) → IsChecked plan → IsAllowed (strategy_of plan n) }
{}

/// A source and a WindowInto have a strategy of their own, and only a Group puts out elements of another
/// strategy than its own.
pub fn strategies_follow_kinds()
    ensures own { (plan : Plan) (n : ℕ) (node : Node) → slice_get plan.nodes n ≡ Some node
        → HasOwnStrategy node.kind (strategy_of plan n) }
    ensures onward { (plan : Plan) (n : ℕ) (node : Node) → slice_get plan.nodes n ≡ Some node
        → onward_of plan n ≡ (if is_group_kind node.kind
        then below_group (strategy_of plan n) else strategy_of plan n) }
{}

/// The followers of a node are the nodes that name it as an input, each as often as it does, in the
/// order of their numbers. In a checked plan they come after it.
pub fn followers_name_the_node()
    ensures times { (plan : Plan) (n follower : ℕ) (node : Node)
        → slice_get plan.nodes follower ≡ Some node
        → count_by (λ m. m == follower) (followers_of plan n)
        ≡ count_by (λ input. input == n) node.inputs }
    ensures ascend { (plan : Plan) (n : ℕ) → IsNonDecreasing (followers_of plan n) }
    ensures later { (plan : Plan) (n : ℕ) → IsChecked plan
        → All (λ follower. (n < follower) × (follower < length plan.nodes)) (followers_of plan n) }
{}

/// A follower takes elements of its own strategy, unless it is a WindowInto.
pub fn followers_take_elements_of_their_strategy()
    ensures { (plan : Plan) (n follower : ℕ) (node : Node)
        → IsChecked plan → Contains (followers_of plan n) follower
        → slice_get plan.nodes follower ≡ Some node → is_window_into_kind node.kind ≡ false
        → strategy_of plan follower ≡ onward_of plan n }
{}

/// An output of a node brings all that its followers make of it, one after another.
pub fn chains_go_by_followers()
    ensures { (plan : Plan) (n : ℕ) (e : Element) → IsChecked plan
        → chain plan n e ≡ flat_map (taken_by plan e) (followers_of plan n) }
{}
