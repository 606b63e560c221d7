ghost use Rattle.std.specs.Prelude.{IfOk};
ghost use Rattle.combine_lift.specs.Folds.{AreExtracted, IsExtracted};

use crate::Combiner;
use crate::combined::Combined;
use crate::merging::settle;
use crate::row::Row;
use beam_values::{List, NoMemory};
use std::alloc::Global;

/// What rows give, by window and then by key.
pub fn extract_all<C: Combiner>(
    alloc: Global,
    combiner: &C,
    rows: Vec<Row<C::Acc>>,
) -> Result<List<Combined>, NoMemory>
    ensures { IfOk result (AreExtracted C.stands C.work rows.items) }
{
    let mut rows = rows;
    settle(&mut rows);
    let mut combined = Vec::with_capacity(alloc, rows.len())?;
    while let Some(row) = rows.pop() {
        combined.push(extract(combiner, row))?;
    }
    Ok(List::from_vec(combined))
}

fn extract<C: Combiner>(combiner: &C, row: Row<C::Acc>) -> Combined
    ensures { IsExtracted C.stands C.work row result }
{
    let Row { span, key, acc } = row;
    let value = combiner.extract(&acc);
    Combined { key, span, value }
}
