ghost use Rattle.std.specs.Prelude.{◌≡◌, ◌++◌, List as ListOf, IfOk, OnOk};
ghost use Rattle.std.specs.List.Sorted.{IsSorted};
ghost use Rattle.beam_values.specs.Orders.{value_cmp};
ghost use Rattle.keyed_state.specs.Bags.{holds_value, joined, HoldsSame};

use beam_values::{Boxed, List, NoMemory, Value, cmp_values};
use std::alloc::Global;
use std::marker::Model;

/// Values in the order in which they were added, and sorted, so that one is found by search. Nothing
/// changes a run, so the states that have it in common share it.
#[derive(Debug, Drop)]
pub struct Run {
    values: List<Value>,
    sorted: List<Value>,
}

impl Model for Run {
    ghost use Rattle.std.specs.Prelude.{List as ListOf};
    ghost use Rattle.std.specs.Coded.{codes};
    ghost use Rattle.beam_values.specs.declared.value.Value.{Value as ValueOf};
    ghost use Rattle.beam_values.specs.contracts.value.Value as value;
    ghost use Rattle.keyed_state.specs.Bags.{IsSortedFrom};

    ghost Value = { ListOf ValueOf };

    ghost coded = { Prim.hlevel (codes, value.the_row.coded) };

    ghost view = { λ r. r.values };

    ghost invariant = { λ r. IsSortedFrom r.values r.sorted };
}

impl Run {
    /// The values of these runs, one run after another, and then the recent ones: `count` of them in all,
    /// for which room is made.
    pub fn of(
        alloc: Global,
        runs: &[Boxed<Run>],
        recent: &[Value],
        count: usize,
    ) -> Result<Run, NoMemory>
        ensures { IfOk result (λ run. run ≡ joined runs.now ++ recent.now) }
    {
        let mut both = Both {
            values: List::new(alloc),
            sorted: List::new(alloc),
        };
        both.values.reserve(count)?;
        both.sorted.reserve(count)?;
        append_runs(alloc, &mut both, runs)?;
        append_copies(alloc, &mut both.values, recent)?;
        append_copies(alloc, &mut both.sorted, recent)?;
        let Both { values, sorted } = both;
        Ok(Run {
            values,
            sorted: in_order(sorted)?,
        })
    }

    /// The values in the order in which they were added.
    pub fn values(&self) -> &[Value]
        ensures { result.now ≡ self.now }
    {
        self.values.as_slice()
    }

    /// Whether a value that is spelled alike is among them. Takes no memory.
    pub fn holds(&self, value: &Value) -> bool
        ensures { result ≡ holds_value self.now value.now }
    {
        self.sorted
            .as_slice()
            .binary_search_by(|held| cmp_values(held, value))
            .is_ok()
    }
}

// The values of a run that is made, and those that are to be sorted.
#[derive(Debug, Drop)]
struct Both {
    values: List<Value>,
    sorted: List<Value>,
}

// Sorted runs one behind another: a sort then merges them, in time of their length.
fn append_runs(alloc: Global, both: &mut Both, runs: &[Boxed<Run>]) -> Result<(), NoMemory>
    requires { HoldsSame both.old.sorted both.old.values }
    ensures values { OnOk result (both.new.values ≡ both.old.values ++ joined runs.now) }
    ensures same { OnOk result (HoldsSame both.new.sorted both.new.values) }
{
    for run in runs {
        let run = run.get();
        append_copies(alloc, &mut both.values, run.values.as_slice())?;
        append_copies(alloc, &mut both.sorted, run.sorted.as_slice())?;
    }
    Ok(())
}

fn in_order(values: List<Value>) -> Result<List<Value>, NoMemory>
    ensures order { IfOk result (λ sorted. IsSorted value_cmp sorted) }
    ensures same { IfOk result (λ sorted. HoldsSame sorted values) }
{
    let mut sorted = values.into_vec();
    sorted.sort_by(|a, b| cmp_values(a, b))?;
    Ok(List::from_vec(sorted))
}

/// Adds copies of the values. After a refusal nothing is said of what was added.
pub fn append_copies(
    alloc: Global,
    values: &mut List<Value>,
    more: &[Value],
) -> Result<(), NoMemory>
    ensures { OnOk result (values.new ≡ values.old ++ more.now) }
{
    for value in more {
        values.push(value.copy(alloc)?)?;
    }
    Ok(())
}
