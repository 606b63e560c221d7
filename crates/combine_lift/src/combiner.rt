ghost use Rattle.std.specs.Prelude.{◌≡◌, ◌+◌, ◌<◌, ◌^◌, ℕ, Bool, [], ◌∷◌, ◌++◌, length};
ghost use Rattle.std.specs.Prelude.{List as ListOf};
ghost use Rattle.std.specs.Bool.{OnTrue, OnFalse};
ghost use Rattle.beam_values.specs.Bags.{IsSameBag};
ghost use Rattle.beam_values.specs.declared.plan.FnKind.{FnKind as FnKindOf};
ghost use Rattle.beam_values.specs.declared.value.Value.{Value as ValueOf};
ghost use Rattle.beam_model.specs.Functions.{fold_of};
ghost use Rattle.combine_lift.specs.Views.{view_value};

use crate::View;
use beam_values::Value;

/// How parts are folded one after another, into what a function of sequences gives of all of them (Beam
/// Programming Guide, Combine: advanced combinations using CombineFn).
pub trait Combiner: Drop {
    /// What is kept of the parts so far. It takes no memory of its own.
    type Acc: Drop;

    /// The function of sequences.
    ghost work: { FnKindOf };

    /// The parts that it takes.
    ghost takes: { ValueOf → Bool };

    /// An accumulator stands for a list of parts.
    ghost stands: { Self.Acc → ListOf ValueOf → Type 0 };

    /// How many parts it stands for.
    ghost held: { Self.Acc → ℕ };

    /// Stands for no part.
    fn unit(&self) -> Self::Acc
        ensures stands { stands result [] }
        ensures count { held result ≡ 0 };

    /// How many parts there are.
    fn count(&self, acc: &Self::Acc) -> u64
        ensures { result ≡ held acc.now };

    /// One more part, where it is one that is taken; at any other the answer is `false`.
    fn add(&self, acc: &mut Self::Acc, part: View<'_>) -> bool
        requires { held acc.old + 1 < 2 ^ 63 }
        ensures taken { result ≡ takes (view_value part.entry) }
        ensures added { OnTrue result ((parts : ListOf ValueOf)
            → stands acc.old parts → stands acc.new (parts ++ view_value part.entry ∷ [])) }
        ensures count { OnTrue result (held acc.new ≡ held acc.old + 1) }
        ensures kept { OnFalse result (acc.new ≡ acc.old) };

    /// Stands for the parts of both.
    fn merge(&self, acc: &mut Self::Acc, other: Self::Acc)
        requires { held acc.old + held other < 2 ^ 63 }
        ensures stands { (parts others : ListOf ValueOf)
            → stands acc.old parts → stands other others → stands acc.new (parts ++ others) }
        ensures count { held acc.new ≡ held acc.old + held other };

    /// What the function gives of the parts. Of a sum that leaves 64 bits there is none.
    fn extract(&self, acc: &Self::Acc) -> Option<Value>
        ensures { (parts : ListOf ValueOf) → stands acc.now parts → result ≡ fold_of work parts };

    /// What stands for a list stands for the same parts in any other order.
    ghost order: { (acc : Self.Acc) (parts others : ListOf ValueOf)
        → IsSameBag parts others → stands acc parts → stands acc others };

    /// The count is the length of the list.
    ghost counts: { (acc : Self.Acc) (parts : ListOf ValueOf)
        → stands acc parts → held acc ≡ length parts };
}
