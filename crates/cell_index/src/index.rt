ghost use Rattle.std.specs.Prelude.{◌≡◌, List as ListOf, [], ◌∷◌, ◌++◌, length, Some, IfOk, IfSome};
ghost use Rattle.std.specs.Prelude.{true, IsNone, IsSome, OnErr, OnOk};
ghost use Rattle.std.specs.BTreeMap as tree;
ghost use Rattle.std.specs.Ordering.{as_partial_cmp, eq_by_cmp, on, then_cmp};
ghost use Rattle.std.specs.Cmp.{partial_order_from_own_ties};
ghost use Rattle.std.specs.Cmp.Rules.{comparing};
ghost use Rattle.std.proofs.Common.{rules};
ghost use Rattle.beam_values.specs.Cells.{span_cmp};
ghost use Rattle.beam_values.specs.Orders.{value_cmp};
ghost use Rattle.beam_values.specs.declared.cell.Cell.{Cell as CellOf};
ghost use Rattle.cell_index.specs.Places.{place_of};
ghost use Rattle.cell_index.specs.Indexes.{cell_key_cmp, IsFoundPlace, IsIndexOf};

use crate::guesses::{Guess, Guesses};
use crate::index_key::{CellKey, IndexKey, hash_with, lead_of};
use beam_values::{Cell, NoMemory, Span, Value};
use std::alloc::Global;
use std::collections::BTreeMap;

/// The places of cells by node, window and key.
#[derive(Debug, Drop)]
pub struct CellIndex {
    pub places: BTreeMap<IndexKey, u32>,
    /// Of cells that were found or put lately.
    pub guesses: Guesses,
}

impl CellIndex {
    /// Takes no memory.
    pub fn new(alloc: Global) -> CellIndex
        ensures { IsIndexOf result [] }
    {
        CellIndex {
            places: BTreeMap::new(alloc),
            guesses: Guesses::new(alloc),
        }
    }

    /// The places of all cells there are.
    pub fn of(alloc: Global, cells: &[Cell]) -> Result<CellIndex, NoMemory>
        ensures { IfOk result (λ index. IsIndexOf index cells.now) }
    {
        let mut index = CellIndex::new(alloc);
        for (place, cell) in cells.iter().enumerate() {
            index.add_cell(alloc, cell, place)?;
        }
        Ok(index)
    }

    fn add_cell(&mut self, alloc: Global, cell: &Cell, place: usize) -> Result<(), NoMemory>
        ensures { OnOk result ((cells : ListOf CellOf) → IsIndexOf self.old cells
            → place ≡ length cells → IsIndexOf self.new (cells ++ cell.now ∷ [])) }
    {
        let key = key_of_cell(alloc, cell)?;
        let place = u32::try_from(place).map_err(|_| NoMemory)?;
        self.add(alloc, &key, place)
    }

    /// The place of the cell among all cells, counted from 0, if there is one.
    pub fn find(&self, key: &IndexKey) -> Option<u32>
        ensures { (cells : ListOf CellOf) → IsIndexOf self.now cells
            → result ≡ place_of key.now.node key.now.key key.now.span cells }
    {
        self.places.get(key).copied()
    }

    /// The same, with a guess for the next time. Where there is no such cell, its place is `next` now,
    /// behind the others: a new cell costs one walk down the map and not two. After a refusal no place is
    /// added.
    pub fn find_or_add(
        &mut self,
        alloc: Global,
        key: &IndexKey,
        next: u32,
    ) -> Result<Option<u32>, NoMemory>
        ensures found { IfOk result (λ place. (cells : ListOf CellOf) → IsIndexOf self.old cells
            → place ≡ place_of key.now.node key.now.key key.now.span cells) }
        ensures kept { IfOk result (λ place. IsSome place → (cells : ListOf CellOf)
            → IsIndexOf self.old cells → IsIndexOf self.new cells) }
        ensures added { IfOk result (λ place. IsNone place → (cells : ListOf CellOf) (cell : CellOf)
            → IsIndexOf self.old cells → next ≡ length cells
            → cell.node ≡ key.now.node → cell.key ≡ key.now.key → cell.span ≡ key.now.span
            → IsIndexOf self.new (cells ++ cell ∷ [])) }
        ensures err { OnErr result
            ((cells : ListOf CellOf) → IsIndexOf self.old cells → IsIndexOf self.new cells) }
    {
        let hash = key.hash();
        let own = key.copy(alloc)?;
        let known = self.places.insert(own, next)?;
        match known {
            Some(place) => {
                put_back(&mut self.places, key, place);
                self.guesses
                    .note_missed(Guess { hash, place }, self.places.len());
                Ok(Some(place))
            }
            None => {
                self.guesses.make_room(self.places.len());
                self.guesses.note(Guess { hash, place: next });
                Ok(None)
            }
        }
    }

    /// A place that may be that of the cell of a node, key and window: that of some cell.
    pub fn guess(&self, node: u32, key: &Value, span: Span) -> Option<u32>
        ensures { (cells : ListOf CellOf) → IsIndexOf self.now cells
            → IfSome result (IsFoundPlace cells) }
    {
        self.guesses.place(hash_with(node, lead_of(key, span)))
    }

    /// The place of one more cell, behind the others. Where another cell of its node, key and window is
    /// found, that one stays. After a refusal no place is added.
    pub fn add(&mut self, alloc: Global, key: &IndexKey, place: u32) -> Result<(), NoMemory>
        ensures ok { OnOk result ((cells : ListOf CellOf) (cell : CellOf)
            → IsIndexOf self.old cells → place ≡ length cells
            → cell.node ≡ key.now.node → cell.key ≡ key.now.key → cell.span ≡ key.now.span
            → IsIndexOf self.new (cells ++ cell ∷ [])) }
        ensures err { OnErr result
            ((cells : ListOf CellOf) → IsIndexOf self.old cells → IsIndexOf self.new cells) }
    {
        let _found = self.find_or_add(alloc, key, place)?;
        Ok(())
    }

    /// The cell at a place, which is the last one, leaves. Another cell of its node, key and window may be
    /// found before it, and stays. All guesses are lost, since some may be of this place. Takes no memory.
    pub fn remove_last(&mut self, key: &IndexKey, place: usize)
        ensures { (cells : ListOf CellOf) (cell : CellOf) → IsIndexOf self.old (cells ++ cell ∷ [])
            → place ≡ length cells
            → cell.node ≡ key.now.node → cell.key ≡ key.now.key → cell.span ≡ key.now.span
            → IsIndexOf self.new cells }
    {
        self.guesses.forget();
        if is_at(&self.places, key, place) {
            self.places.remove(key);
        }
    }
}

/// Whether a key has this place.
fn is_at(places: &BTreeMap<IndexKey, u32>, key: &IndexKey, place: usize) -> bool
    ensures there { result ≡ true → tree.get cell_key_cmp places.now key.now ≡ Some place }
    ensures whole { tree.get cell_key_cmp places.now key.now ≡ Some place → result ≡ true }
{
    match places.get(key) {
        None => false,
        Some(found) => *found as usize == place,
    }
}

/// A key that the map has gets its place again.
fn put_back(places: &mut BTreeMap<IndexKey, u32>, key: &IndexKey, place: u32)
    ensures { IsSome (tree.get cell_key_cmp places.old key.now)
        → tree.Updates cell_key_cmp places.old places.new key.now (Some place) }
{
    if let Some(at) = places.get_mut(key) {
        *at = place;
    }
}

fn key_of_cell(alloc: Global, cell: &Cell) -> Result<IndexKey, NoMemory>
    ensures { IfOk result
        (λ key. key ≡ record { node = cell.now.node; span = cell.now.span; key = cell.now.key }) }
{
    let key = cell.key.copy(alloc)?;
    Ok(IndexKey::of(CellKey {
        node: cell.node,
        span: cell.span,
        key,
    }))
}
