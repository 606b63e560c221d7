//! What the answers of a view mean to a reader. The function does nothing: its contract is the law.

ghost use Rattle.std.specs.Prelude.{◌≡◌, List, true};
ghost use Rattle.std.specs.List.{flat_map, list_all};
ghost use Rattle.beam_values.specs.declared.plan.FnKind.TheVariants as joins;
ghost use Rattle.beam_values.specs.declared.value.Value.{Value};
ghost use Rattle.beam_model.specs.Functions.{ascending, found_in, is_pair, joined_with, only_one};
ghost use Rattle.beam_model.specs.Values.{pair, seq};

/// A main value is joined with what a view of these values answers: by all values with its list, by the
/// only one with its single value, and by a key with what it finds there, where each value has a key.
pub fn joins_are_what_views_answer()
    ensures list { (views : List Value) (main : Value)
        → joined_with joins.JoinList views main ≡ Some (seq (ascending views)) }
    ensures single { (views : List Value) (main : Value)
        → joined_with joins.JoinSingle views main ≡ only_one views }
    ensures find { (views : List Value) (key part : Value) → list_all is_pair views ≡ true
        → joined_with joins.JoinLookup views (pair key part)
        ≡ Some (seq (ascending (flat_map (found_in key) views))) }
{}
