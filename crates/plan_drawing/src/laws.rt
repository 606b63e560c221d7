//! That a drawing speaks as documents do. The function does nothing: its contract is the law.

ghost use Rattle.std.specs.Prelude.{◌≡◌, if◌then◌else◌, None, Some};
ghost use Rattle.beam_values.specs.declared.plan.FnKind.{FnKind as FnKindOf};
ghost use Rattle.beam_values.specs.declared.plan.Mode.{Mode as ModeOf};
ghost use Rattle.beam_values.specs.declared.plan.SourceKind.{SourceKind as SourceKindOf};
ghost use Rattle.beam_values.specs.declared.plan.StateKind.{StateKind as StateKindOf};
ghost use Rattle.plan_reader.specs.Words.{functions, meaning_in, modes, sources};
ghost use Rattle.plan_reader.specs.Words.{stateful_functions};
ghost use Rattle.plan_drawing.specs.Words.{function_word, is_of_side_input, mode_word};
ghost use Rattle.plan_drawing.specs.Words.{source_word, state_word};

/// Each word that a drawing has for a source, a function or a mode is read as that in a plan document;
/// those of the functions of side inputs are no words there.
pub fn words_are_those_of_documents()
    ensures sources { (work : SourceKindOf) → meaning_in sources (source_word work) ≡ Some work }
    ensures functions { (work : FnKindOf) → meaning_in functions (function_word work)
        ≡ (if is_of_side_input work then None else Some work) }
    ensures stateful { (work : StateKindOf)
        → meaning_in stateful_functions (state_word work) ≡ Some work }
    ensures modes { (mode : ModeOf) → meaning_in modes (mode_word mode) ≡ Some mode }
{}
