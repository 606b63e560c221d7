ghost use Rattle.std.specs.Prelude.{◌≡◌, ◌+◌, ◌<◌, ◌≤◌, ◌^◌, ◌∷◌, ◌++◌, ◌↔◌, [], length, Some};
ghost use Rattle.std.specs.Prelude.{IfErr, IfOk, IfSome, IsNone, IsSome, IsTrue, OnErr, OnOk};
ghost use Rattle.std.specs.Prelude.{List as ListOf, reverse, vec_capacity};
ghost use Rattle.std.specs.Bool.{OnFalse, OnTrue};
ghost use Rattle.std.specs.List.Sorted.{IsPermutation, IsSorted};
ghost use Rattle.combine_lift.specs.Folds.{AreFolds};
ghost use Rattle.combine_lift.specs.Tables.{held_in, row_cmp, row_place, AddsAt, Added as AddedOf, IsRowAt, StandsFor};
ghost use Rattle.combine_lift.specs.Views.{view_value};

use crate::combined::Combined;
use crate::extracting::extract_all;
use crate::merging::{merge, room_for, settle};
use crate::row::Row;
use crate::rows_index::{find_or_note, guessed, index_key, note, note_next};
use crate::{Combiner, View};
use beam_values::{List, NoMemory, Span};
use cell_index::{CellIndex, CellKey, Guesses};
use std::alloc::Global;
use std::marker::Model;
use std::mem;

/// What was combined so far: a row for each key and window to which a part came. A key lies in memory once
/// for each of its rows, and once more, shared where it is long, in the index.
///
/// A table is filled by one worker, who settles it; [`Partials::absorb`] takes the rows of another one.
#[derive(Drop)]
pub struct Partials<C: Combiner> {
    combiner: C,
    rows: Vec<Row<C::Acc>>,
    /// The places of all rows, where `indexed`.
    index: CellIndex,
    indexed: bool,
    /// At the places of rows that were found lately. A guess is compared with the row there.
    guesses: Guesses,
    parts: u64,
}

impl<C: Combiner> Model for Partials<C> {
    ghost use Rattle.std.specs.Coded.{codes};
    ghost use Rattle.beam_values.specs.contracts.value.Value as value;
    ghost use Rattle.combine_lift.specs.Indexed.{IsKept};
    ghost use Rattle.combine_lift.specs.Tables.{Table};

    ghost Value = { Table C.Acc };

    ghost coded = { Prim.hlevel (codes, C.Acc.code, value.the_row.coded) };

    ghost view = { λ p. record { rows = p.rows.items; parts = p.parts } };

    ghost invariant = { λ p. IsKept C.held p.rows.items p.index p.indexed p.parts };
}

impl<C: Combiner> Partials<C> {
    /// Takes no memory.
    pub fn new(alloc: Global, combiner: C) -> Partials<C>
        ensures stands { StandsFor C.stands result [] }
        ensures parts { result.parts ≡ 0 }
    {
        Partials {
            combiner,
            rows: Vec::new(alloc),
            index: CellIndex::new(alloc),
            indexed: true,
            guesses: Guesses::new(alloc),
            parts: 0,
        }
    }

    /// How many parts were added and absorbed.
    pub fn parts(&self) -> u64
        ensures { result ≡ self.now.parts }
    {
        self.parts
    }

    /// How many keys and windows there are.
    pub fn len(&self) -> usize
        ensures { result ≡ length self.now.rows }
    {
        self.rows.len()
    }

    /// Whether no part was added or absorbed.
    pub fn is_empty(&self) -> bool
        ensures { IsTrue result ↔ (self.now.rows ≡ []) }
    {
        self.rows.is_empty()
    }

    /// One more part of a key and window. At a part that the combiner doesn't take the answer is `false`.
    pub fn add(
        &mut self,
        alloc: Global,
        key: View<'_>,
        span: Span,
        part: View<'_>,
    ) -> Result<bool, NoMemory>
        requires { self.old.parts + 1 < 2 ^ 63 }
        ensures taken { IfOk result (λ taken. taken ≡ C.takes (view_value part.entry)) }
        ensures added { IfOk result (λ taken. OnTrue taken ((added : ListOf AddedOf)
            → StandsFor C.stands self.old added → StandsFor C.stands self.new
            (added ++ (record {
              key = view_value key.entry;
              span = span;
              part = view_value part.entry;
            }) ∷ []))) }
        ensures parts { IfOk result (λ taken. OnTrue taken (self.new.parts ≡ self.old.parts + 1)) }
        ensures kept { IfOk result (λ taken. OnFalse taken (self.new ≡ self.old)) }
        ensures err { OnErr result (self.new ≡ self.old) }
    {
        match self.guessed(key, span) {
            Some(place) => Ok(self.add_at(place, part)),
            None => self.add_by_map(alloc, key, span, part),
        }
    }

    /// The place of the row of a key and window, where a guess is right.
    fn guessed(&self, key: View<'_>, span: Span) -> Option<u32>
        ensures { IfSome result (IsRowAt (view_value key.entry) span self.now.rows) }
    {
        guessed(&self.guesses, self.rows.as_slice(), key, span)
    }

    /// One more part of the row at a place.
    fn add_at(&mut self, place: u32, part: View<'_>) -> bool
        requires within { place < length self.old.rows }
        requires few { self.old.parts + 1 < 2 ^ 63 }
        ensures taken { result ≡ C.takes (view_value part.entry) }
        ensures added { OnTrue result
            (AddsAt C.stands C.held (view_value part.entry) place self.old.rows self.new.rows) }
        ensures parts { OnTrue result (self.new.parts ≡ self.old.parts + 1) }
        ensures kept { OnFalse result (self.new ≡ self.old) }
    {
        if !add_to(&self.combiner, &mut self.rows, place as usize, part) {
            return false;
        }
        self.parts += 1;
        true
    }

    /// The same as `add`, where the place isn't guessed.
    fn add_by_map(
        &mut self,
        alloc: Global,
        key: View<'_>,
        span: Span,
        part: View<'_>,
    ) -> Result<bool, NoMemory>
        requires { self.old.parts + 1 < 2 ^ 63 }
        ensures taken { IfOk result (λ taken. taken ≡ C.takes (view_value part.entry)) }
        ensures added { IfOk result (λ taken. OnTrue taken ((added : ListOf AddedOf)
            → StandsFor C.stands self.old added → StandsFor C.stands self.new
            (added ++ (record {
              key = view_value key.entry;
              span = span;
              part = view_value part.entry;
            }) ∷ []))) }
        ensures parts { IfOk result (λ taken. OnTrue taken (self.new.parts ≡ self.old.parts + 1)) }
        ensures kept { IfOk result (λ taken. OnFalse taken (self.new ≡ self.old)) }
        ensures err { OnErr result (self.new ≡ self.old) }
    {
        let mut acc = self.combiner.unit();
        if !self.combiner.add(&mut acc, part) {
            return Ok(false);
        }
        match self.find_or_open(alloc, key, span, acc)? {
            Some(place) => Ok(self.add_at(place, part)),
            None => Ok(true),
        }
    }

    /// The place of the row of a key and window. Where there is none, this is one with one part.
    fn find_or_open(
        &mut self,
        alloc: Global,
        key: View<'_>,
        span: Span,
        acc: C::Acc,
    ) -> Result<Option<u32>, NoMemory>
        requires one { C.held acc ≡ 1 }
        requires few { self.old.parts + 1 < 2 ^ 63 }
        ensures found { IfOk result (λ place. place ≡ row_place (view_value key.entry) span self.old.rows) }
        ensures same { IfOk result (λ place. IsSome place → self.new ≡ self.old) }
        ensures opened { IfOk result (λ place. IsNone place → self.new ≡ record {
          rows = self.old.rows ++ (record { span = span; key = view_value key.entry; acc = acc }) ∷ [];
          parts = self.old.parts + 1;
        }) }
        ensures err { OnErr result (self.new ≡ self.old) }
    {
        let own = index_key(alloc, key, span)?;
        self.rows.reserve(1)?;
        let found = find_or_note(
            alloc,
            self.rows.as_slice(),
            &mut self.index,
            &mut self.indexed,
            &own,
        )?;
        match found {
            Some(place) => {
                note(&mut self.guesses, key, span, place, self.rows.len());
                Ok(Some(place))
            }
            None => {
                note_next(&mut self.guesses, key, span, self.rows.len());
                let CellKey { node: _, span, key } = own.into_cell();
                self.rows.push_reserved(Row { span, key, acc });
                self.parts += 1;
                Ok(None)
            }
        }
    }

    /// Puts the rows in falling order and gives up the index and the guesses: what is to be done before rows are
    /// merged, so that each worker can do it in a thread of its own. Takes no memory. Where more is added, the
    /// index is made anew.
    pub fn settle(&mut self, alloc: Global)
        ensures stands { (added : ListOf AddedOf)
            → StandsFor C.stands self.old added → StandsFor C.stands self.new added }
        ensures parts { self.new.parts ≡ self.old.parts }
        ensures same { IsPermutation self.old.rows self.new.rows }
        ensures falling { IsSorted row_cmp (reverse self.new.rows) }
    {
        self.index = CellIndex::new(alloc);
        self.indexed = false;
        self.guesses = Guesses::new(alloc);
        settle(&mut self.rows);
    }

    /// Takes all rows of another table: as they are where there is none here, and else in time that grows with
    /// the rows of both, where each is settled, or made by absorbing such ones. For want of memory the other one is
    /// handed back.
    pub fn absorb(&mut self, alloc: Global, other: Partials<C>) -> Result<(), Partials<C>>
        requires { self.old.parts + other.parts < 2 ^ 63 }
        ensures ok { OnOk result ((added more : ListOf AddedOf)
            → StandsFor C.stands self.old added → StandsFor C.stands other more
            → StandsFor C.stands self.new (added ++ more)) }
        ensures parts { OnOk result (self.new.parts ≡ self.old.parts + other.parts) }
        ensures err { IfErr result (λ back. (self.new ≡ self.old) × (back ≡ other)) }
    {
        if self.rows.is_empty() {
            *self = other;
            return Ok(());
        }
        let Some(room) = room_for(alloc, self.rows.len(), other.rows.len()) else {
            return Err(other);
        };
        self.join(alloc, other, room);
        Ok(())
    }

    /// The same, where there is room for all rows.
    fn join(&mut self, alloc: Global, other: Partials<C>, room: Vec<Row<C::Acc>>)
        requires few { self.old.parts + other.parts < 2 ^ 63 }
        requires empty { room.items ≡ [] }
        requires room { length self.old.rows + length other.rows ≤ vec_capacity room }
        ensures stands { (added more : ListOf AddedOf)
            → StandsFor C.stands self.old added → StandsFor C.stands other more
            → StandsFor C.stands self.new (added ++ more) }
        ensures parts { self.new.parts ≡ self.old.parts + other.parts }
    {
        let Partials {
            combiner: _,
            rows: others,
            index,
            indexed: _,
            guesses,
            parts,
        } = other;
        drop(index);
        drop(guesses);
        self.index = CellIndex::new(alloc);
        self.indexed = false;
        self.guesses = Guesses::new(alloc);
        let mut others = others;
        let mut rows = mem::replace(&mut self.rows, Vec::new(alloc));
        settle(&mut rows);
        settle(&mut others);
        self.rows = merge(&self.combiner, rows, others, room);
        self.parts += parts;
    }

    /// The fold of the parts of each key and window, by window and then by the bytes that spell the key.
    pub fn into_rows(self, alloc: Global) -> Result<List<Combined>, NoMemory>
        ensures { IfOk result (λ rows. (added : ListOf AddedOf)
            → StandsFor C.stands self added → AreFolds C.work added rows) }
    {
        let Partials {
            combiner,
            rows,
            index,
            indexed: _,
            guesses,
            parts: _,
        } = self;
        drop(index);
        drop(guesses);
        extract_all(alloc, &combiner, rows)
    }
}

/// One more part of the row at a place.
fn add_to<C: Combiner>(
    combiner: &C,
    rows: &mut Vec<Row<C::Acc>>,
    place: usize,
    part: View<'_>,
) -> bool
    requires within { place < length rows.old.items }
    requires few { held_in C.held rows.old.items + 1 < 2 ^ 63 }
    ensures taken { result ≡ C.takes (view_value part.entry) }
    ensures added { OnTrue result
        (AddsAt C.stands C.held (view_value part.entry) place rows.old.items rows.new.items) }
    ensures kept { OnFalse result (rows.new.items ≡ rows.old.items) }
{
    let row = &mut rows[place];
    combiner.add(&mut row.acc, part)
}
