ghost use Rattle.std.specs.Prelude.{◌≡◌, ◌<◌, [], ◌∷◌, ◌++◌, length, slice_set, replicate, IfOk};
ghost use Rattle.std.specs.Prelude.{OnErr, OnOk};
ghost use Rattle.std.specs.Option.{option_copied};
ghost use Rattle.beam_values.specs.declared.state_cell.StateCell.TheVariants.{Unset, Number, Text};
ghost use Rattle.beam_values.specs.declared.state_cell.StateCell.TheVariants.{Bag};
ghost use Rattle.beam_values.specs.States.{cell_of, number_in, bytes_in, bag_in, values_in};
ghost use Rattle.keyed_state.specs.Bags.{holds_value};

use crate::cell::Cell;
use beam_values::{Bytes, List, NoMemory, StateCell, Value};
use std::alloc::Global;
use std::marker::Model;

/// How many cells a state has; they are named from 0.
pub const CELLS: usize = 8;

/// The state cells of one key and window.
#[derive(Debug, Drop)]
pub struct KeyState {
    cells: [Cell; 8],
    alloc: Global,
}

impl Model for KeyState {
    ghost use Rattle.std.specs.Prelude.{◌≡◌, length, List as ListOf};
    ghost use Rattle.beam_values.specs.declared.state_cell.StateCell.{StateCell};
    ghost use Rattle.std.specs.Coded.{codes};
    ghost use Rattle.beam_values.specs.contracts.value.Value as value;

    ghost Value = { ListOf StateCell };

    ghost coded = { Prim.hlevel (codes, value.the_row.coded) };

    ghost view = { λ s. s.cells };

    ghost invariant = { λ s. length s.cells ≡ 8 };
}

impl KeyState {
    /// Takes no memory.
    pub fn new(alloc: Global) -> KeyState
        ensures { result ≡ replicate 8 Unset }
    {
        KeyState {
            cells: no_cells(),
            alloc,
        }
    }

    /// `None` exactly where the cell isn't a number.
    pub fn number(&self, name: u8) -> Option<i64>
        requires { name < 8 }
        ensures { result ≡ number_in (cell_of self.now name) }
    {
        self.cells[name as usize].number()
    }

    /// `None` exactly where the cell isn't a byte string.
    pub fn bytes(&self, name: u8) -> Option<&[u8]>
        requires { name < 8 }
        ensures { option_copied result ≡ bytes_in (cell_of self.now name) }
    {
        self.cells[name as usize].bytes()
    }

    /// Copies of the values; `None` exactly where the cell isn't a bag.
    pub fn bag(&self, name: u8) -> Result<Option<List<Value>>, NoMemory>
        requires { name < 8 }
        ensures { IfOk result (λ bag. bag ≡ bag_in (cell_of self.now name)) }
    {
        self.cells[name as usize].bag(self.alloc)
    }

    /// How many values a bag has; 0 where the cell isn't a bag. Takes no memory.
    pub fn bag_len(&self, name: u8) -> usize
        requires { name < 8 }
        ensures { result ≡ length (values_in (cell_of self.now name)) }
    {
        self.cells[name as usize].bag_len()
    }

    /// Whether a value that is spelled alike is in a bag. It is found by search, and takes no memory.
    pub fn holds(&self, name: u8, value: &Value) -> bool
        requires { name < 8 }
        ensures { result ≡ holds_value (values_in (cell_of self.now name)) value.now }
    {
        self.cells[name as usize].holds(value)
    }

    /// Takes no memory.
    pub fn set_number(&mut self, name: u8, n: i64)
        requires { name < 8 }
        ensures { self.new ≡ slice_set self.old name (Number n) }
    {
        self.cells[name as usize] = Cell::of_number(n);
    }

    /// The cell may have had another form. Up to 22 bytes take no memory.
    pub fn set_bytes(&mut self, name: u8, bytes: &[u8]) -> Result<(), NoMemory>
        requires { name < 8 }
        ensures ok { OnOk result (self.new ≡ slice_set self.old name (Text bytes.now)) }
        ensures err { OnErr result (self.new ≡ self.old) }
    {
        let bytes = Bytes::from_slice(self.alloc, bytes)?;
        self.cells[name as usize] = Cell::of_bytes(bytes);
        Ok(())
    }

    /// Takes no memory.
    pub fn clear(&mut self, name: u8)
        requires { name < 8 }
        ensures { self.new ≡ slice_set self.old name Unset }
    {
        self.cells[name as usize] = Cell::unset();
    }

    /// A cell of another form becomes a bag with this one value.
    pub fn add(&mut self, name: u8, value: Value) -> Result<(), NoMemory>
        requires { name < 8 }
        ensures ok { OnOk result (self.new
            ≡ slice_set self.old name (Bag (values_in (cell_of self.old name) ++ value ∷ []))) }
        ensures err { OnErr result (self.new ≡ self.old) }
    {
        self.cells[name as usize].add(self.alloc, value)
    }

    /// What each of the eight cells holds. Long byte strings are shared.
    pub fn cells(&self) -> Result<List<StateCell>, NoMemory>
        ensures { IfOk result (λ cells. cells ≡ self.now) }
    {
        let mut cells = List::from_vec(Vec::with_capacity(self.alloc, CELLS)?);
        for name in 0..CELLS {
            cells.push(self.cells[name].held(self.alloc)?)?;
        }
        Ok(cells)
    }

    /// The state whose cells hold these.
    pub fn restore(alloc: Global, cells: List<StateCell>) -> Result<KeyState, NoMemory>
        requires { length cells ≡ 8 }
        ensures { IfOk result (λ s. s ≡ cells) }
    {
        let mut restored = no_cells();
        let mut name = 0;
        for cell in cells.into_vec() {
            restored[name] = Cell::restore(alloc, cell)?;
            name += 1;
        }
        Ok(KeyState {
            cells: restored,
            alloc,
        })
    }

    /// All eight cells, set or not. Their bags and long byte strings share their memory.
    pub fn copy(&self) -> Result<KeyState, NoMemory>
        ensures { IfOk result (λ s. s ≡ self.now) }
    {
        let alloc = self.alloc;
        let mut cells = no_cells();
        for i in 0..CELLS {
            cells[i] = self.cells[i].copy(alloc)?;
        }
        Ok(KeyState { cells, alloc })
    }
}

fn no_cells() -> [Cell; 8]
    ensures { result ≡ replicate 8 Unset }
{
    [
        Cell::unset(),
        Cell::unset(),
        Cell::unset(),
        Cell::unset(),
        Cell::unset(),
        Cell::unset(),
        Cell::unset(),
        Cell::unset(),
    ]
}
