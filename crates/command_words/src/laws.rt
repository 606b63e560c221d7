//! What the definitions mean to a reader. Each function does nothing: its contract is the law.

ghost use Rattle.std.specs.Prelude.{◌≡◌, ◌↔◌, ℕ, pos, false, List, [], length, codes, Some, None};
ghost use Rattle.std.specs.List.{slice_index_or};
ghost use Rattle.command_words.specs.Commands.{Asked, Panes, command_of};
ghost use Rattle.command_words.specs.Grammar.{AreParts};
ghost use Rattle.command_words.specs.Numbers.{number_of_text};
ghost use Rattle.command_words.specs.PanesAlone.{IsPanesAlone, default_options, file_word};
ghost use Rattle.command_words.specs.PanesAlone.{size_word};
ghost use Rattle.command_words.specs.Parts.{Part, is_dashed, parts_of};
ghost use Rattle.command_words.specs.Rules.{Asks};

/// `panes FILE SIZE` means what it means without options, whatever options there are: it asks for the
/// panes of the file by the options' defaults, and where neither word looks like an option, four words
/// of `panes` are refused for nothing else.
pub fn panes_alone_is_panes_by_default()
    ensures taken { (words : List (List ℕ)) → IsPanesAlone words
        → command_of words
        ≡ Some (Panes (file_word words) (pos (number_of_text (size_word words))) default_options) }
    ensures refused { (words : List (List ℕ)) → length words ≡ 4
        → slice_index_or words 1 [] ≡ codes "panes"
        → is_dashed (file_word words) ≡ false → is_dashed (size_word words) ≡ false
        → (IsPanesAlone words → ⊥) → command_of words ≡ None }
{}

/// The words after the name of a command are exactly the parts that the grammar has: each word belongs
/// to one part, an option in one word or in two, and a `--` ends the options.
pub fn parts_are_those_of_the_grammar()
    ensures { (words : List (List ℕ)) (parts : List Part)
        → (parts_of words ≡ Some parts) ↔ AreParts words parts }
{}

/// Words ask for something exactly by the rules, and so for one thing at most.
pub fn words_ask_by_the_rules()
    ensures { (words : List (List ℕ)) (asked : Asked)
        → (command_of words ≡ Some asked) ↔ Asks words asked }
{}
