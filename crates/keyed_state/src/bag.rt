ghost use Rattle.std.specs.Prelude.{◌≡◌, ◌≤◌, ◌∷◌, ◌++◌, [], bytes_eq, length, IfOk, OnErr, OnOk};
ghost use Rattle.beam_values.specs.Spelling.{spelling};
ghost use Rattle.keyed_state.specs.Bags.{holds_value, joined};

use crate::run::{Run, append_copies};
use beam_values::{Boxed, Duplicate, List, NoMemory, Value, cmp_values};
use std::alloc::Global;
use std::marker::Model;

/// How many values lie as they were added before they are sorted into a run.
const RECENT: usize = 16;

/// A bag of many values. The older ones lie in sorted runs, each longer than the next one, so there are few
/// of them: a copy shares the runs, and a value is looked up in each of them. With every added value the
/// work of sorting comes to the logarithm of their number.
#[derive(Debug, Drop)]
pub struct Bag {
    runs: List<Boxed<Run>>,
    recent: List<Value>,
    len: usize,
}

impl Model for Bag {
    ghost use Rattle.std.specs.Prelude.{◌≡◌, ◌++◌, length, List as ListOf};
    ghost use Rattle.std.specs.Coded.{codes};
    ghost use Rattle.beam_values.specs.declared.value.Value.{Value as ValueOf};
    ghost use Rattle.beam_values.specs.contracts.value.Value as value;
    ghost use Rattle.keyed_state.specs.Bags.{joined};

    ghost Value = { ListOf ValueOf };

    ghost coded = { Prim.hlevel (codes, value.the_row.coded) };

    ghost view = { λ b. joined b.runs ++ b.recent };

    ghost invariant = { λ b. length (joined b.runs ++ b.recent) ≡ b.len };
}

impl Bag {
    /// Copies of these values.
    pub fn of(alloc: Global, values: &[Value]) -> Result<Bag, NoMemory>
        ensures { IfOk result (λ bag. bag ≡ values.now) }
    {
        let mut recent = List::new(alloc);
        append_copies(alloc, &mut recent, values)?;
        Ok(Bag {
            runs: List::new(alloc),
            recent,
            len: values.len(),
        })
    }

    /// The same, in order, so that none is sought through all.
    pub fn sorted_of(alloc: Global, values: &[Value]) -> Result<Bag, NoMemory>
        ensures { IfOk result (λ bag. bag ≡ values.now) }
    {
        let mut bag = Bag::of(alloc, values)?;
        bag.settle(alloc)?;
        Ok(bag)
    }

    pub fn len(&self) -> usize
        ensures { result ≡ length self.now }
    {
        self.len
    }

    /// Whether a value that is spelled alike is in it. Takes no memory.
    pub fn holds(&self, value: &Value) -> bool
        ensures { result ≡ holds_value self.now value.now }
    {
        holds_value(self.recent.as_slice(), value) || any_holds(self.runs.as_slice(), value)
    }

    pub fn add(&mut self, alloc: Global, value: Value) -> Result<(), NoMemory>
        ensures ok { OnOk result (self.new ≡ self.old ++ value ∷ []) }
        ensures err { OnErr result (self.new ≡ self.old) }
    {
        let Some(len) = self.len.checked_add(1) else {
            return Err(NoMemory);
        };
        self.settle(alloc)?;
        self.recent.push(value)?;
        self.len = len;
        Ok(())
    }

    // Sorts the recent values into a run where there are many.
    fn settle(&mut self, alloc: Global) -> Result<(), NoMemory>
        ensures { self.new ≡ self.old }
    {
        if self.recent.len() < RECENT {
            return Ok(());
        }
        self.runs = settled(alloc, &self.runs, self.recent.as_slice())?;
        self.recent.truncate(0);
        Ok(())
    }

    /// The values in the order in which they were added.
    pub fn values(&self, alloc: Global) -> Result<List<Value>, NoMemory>
        ensures { IfOk result (λ values. values ≡ self.now) }
    {
        let mut values = List::new(alloc);
        values.reserve(self.len)?;
        for run in self.runs.as_slice() {
            append_copies(alloc, &mut values, run.get().values())?;
        }
        append_copies(alloc, &mut values, self.recent.as_slice())?;
        Ok(values)
    }

    /// Shares the runs.
    pub fn copy(&self, alloc: Global) -> Result<Bag, NoMemory>
        ensures { IfOk result (λ bag. bag ≡ self.now) }
    {
        Ok(Bag {
            runs: self.runs.duplicate(alloc)?,
            recent: self.recent.duplicate(alloc)?,
            len: self.len,
        })
    }
}

/// Whether a value that is spelled alike stands among these.
pub fn holds_value(values: &[Value], value: &Value) -> bool
    ensures { result ≡ holds_value values.now value.now }
{
    values.iter().any(|held| is_same(held, value))
}

#[tactic(auto, using(crate::proofs::SameValues::same_spellings))]
fn is_same(a: &Value, b: &Value) -> bool
    ensures { result ≡ bytes_eq (spelling a.now) (spelling b.now) }
{
    cmp_values(a, b).is_eq()
}

fn any_holds(runs: &[Boxed<Run>], value: &Value) -> bool
    ensures { result ≡ holds_value (joined runs.now) value.now }
{
    for run in runs {
        if run.get().holds(value) {
            return true;
        }
    }
    false
}

// The runs with one more of the recent values, which takes in the runs before it that aren't longer.
fn settled(
    alloc: Global,
    runs: &List<Boxed<Run>>,
    recent: &[Value],
) -> Result<List<Boxed<Run>>, NoMemory>
    ensures { IfOk result (λ settled. joined settled ≡ joined runs.now ++ recent.now) }
{
    let Kept { kept, count } = longer_runs(runs.as_slice(), recent.len());
    let run = Run::of(alloc, runs.as_slice().split_at(kept).1, recent, count)?;
    let mut settled = runs.duplicate(alloc)?;
    settled.truncate(kept);
    settled.push(Boxed::new(alloc, run)?)?;
    Ok(settled)
}

// How many runs stay, and how many values the run behind them has.
#[derive(Clone, Copy)]
struct Kept {
    kept: usize,
    count: usize,
}

fn longer_runs(runs: &[Boxed<Run>], recent: usize) -> Kept
    ensures { result.kept ≤ length runs.now }
{
    let mut kept = runs.len();
    let mut count = recent;
    while kept > 0 {
        let len = runs[kept - 1].get().values().len();
        if len > count {
            break;
        }
        count = count.saturating_add(len);
        kept -= 1;
    }
    Kept { kept, count }
}
