//! What a book that was stored doesn't hold, made anew of its cells.

ghost use Rattle.std.specs.Prelude.{◌≡◌, ◌<◌, ◌^◌, ◌∷◌, [], ◌++◌, List as ListOf, length, true};
ghost use Rattle.std.specs.Prelude.{if◌then◌else◌, Some, IfOk, OnOk};
ghost use Rattle.std.specs.BTreeSet.{contains};
ghost use Rattle.beam_values.specs.declared.cell.Cell.{Cell as CellOf};
ghost use Rattle.group_cells.specs.Drafts.{IsAtRest};
ghost use Rattle.group_cells.specs.Due.{due_cmp, is_key_of, IsDueOf};
ghost use Rattle.group_cells.specs.declared.groups.due.DueKey.{DueKey as DueKeyOf};

use crate::firing::unseen;
use crate::groups::draft::Tracked;
use crate::groups::due::{DueCells, DueKey, moment_with};
use crate::groups::group_plan::GroupPlan;
use beam_values::{Cell, List, NoMemory};
use cell_index::CellIndex;
use std::alloc::Global;

impl Tracked {
    /// The cells of a book that was stored, found and due.
    pub fn of(alloc: Global, plan: &GroupPlan, cells: List<Cell>) -> Result<Tracked, NoMemory>
        requires { length cells < 2 ^ 32 }
        ensures cells { IfOk result (λ tracked. tracked.cells.items ≡ cells) }
        ensures rest { IfOk result (IsAtRest plan.now) }
    {
        let index = CellIndex::of(alloc, cells.as_slice())?;
        let due = DueCells::of(alloc, plan, cells.as_slice())?;
        Ok(Tracked {
            cells: cells.into_vec(),
            index,
            due,
            changes: Vec::new(alloc),
        })
    }
}

impl DueCells {
    /// The moments of all cells there are.
    fn of(alloc: Global, plan: &GroupPlan, cells: &[Cell]) -> Result<DueCells, NoMemory>
        requires { length cells.now < 2 ^ 32 }
        ensures due { IfOk result (λ due. IsDueOf plan.now due cells.now) }
        ensures moved { IfOk result (λ due. due.moved.items ≡ []) }
    {
        let mut due = DueCells::new(alloc);
        for (place, cell) in cells.iter().enumerate() {
            due.add_cell(plan, place as u32, cell)?;
        }
        Ok(due)
    }

    /// A cell stands behind the others, at this place. None has moved.
    fn add_cell(&mut self, plan: &GroupPlan, place: u32, cell: &Cell) -> Result<(), NoMemory>
        ensures due { OnOk result ((cells : ListOf CellOf) → place ≡ length cells
            → IsDueOf plan.now self.old cells → IsDueOf plan.now self.new (cells ++ cell.now ∷ [])) }
        ensures moved { OnOk result (self.new.moved ≡ self.old.moved) }
    {
        let count = unseen(cell.entries.as_slice());
        let moment = moment_with(plan, cell, cell.on_time, count);
        self.unseen.push(count)?;
        self.put_in(cell.node, place, moment)
    }

    /// A cell is due at a moment from the beginning on.
    fn put_in(&mut self, node: u32, place: u32, moment: Option<i64>) -> Result<(), NoMemory>
        ensures moments { OnOk result ((q : DueKeyOf) → contains due_cmp self.new.moments q
            ≡ (if is_key_of node place moment q then true
            else contains due_cmp self.old.moments q)) }
        ensures others { (self.new.moved ≡ self.old.moved) × (self.new.unseen ≡ self.old.unseen) }
    {
        match moment {
            None => Ok(()),
            Some(moment) => self.put_key_in(DueKey {
                node,
                moment,
                place,
            }),
        }
    }

    fn put_key_in(&mut self, key: DueKey) -> Result<(), NoMemory>
        ensures moments { OnOk result ((q : DueKeyOf) → contains due_cmp self.new.moments q
            ≡ (if is_key_of key.node key.place (Some key.moment) q then true
            else contains due_cmp self.old.moments q)) }
        ensures others { (self.new.moved ≡ self.old.moved) × (self.new.unseen ≡ self.old.unseen) }
    {
        self.moments.insert(key)?;
        Ok(())
    }
}
