ghost use Rattle.std.specs.Prelude.{◌≡◌, IfSome, OnErr, OnOk, None, Some};
ghost use Rattle.std.specs.BTreeMap as tree;
ghost use Rattle.cell_index.specs.Indexes.{cell_key_cmp};
ghost use Rattle.cell_index.specs.declared.index_key.CellKey.{CellKey as CellKeyOf};

use beam_values::{NoMemory, Span, Value};
use cell_index::{CellIndex, Guess, IndexKey};
use std::alloc::Global;

/// Leads from node, window and key to the numbers of cells. What it leads to has to be compared with the cell
/// that stands there: a number may be left of a commit that was prepared, and not placed.
#[derive(Debug, Drop)]
pub struct KeyIndex {
    pub numbers: CellIndex,
}

impl KeyIndex {
    /// Takes no memory.
    pub fn new(alloc: Global) -> KeyIndex
        ensures { (wanted : CellKeyOf)
            → tree.get cell_key_cmp result.numbers.places wanted ≡ None }
    {
        KeyIndex {
            numbers: CellIndex::new(alloc),
        }
    }

    /// The number that was noted last for what has the same hash.
    pub fn guess(&self, node: u32, key: &Value, span: Span) -> Option<u32> {
        self.numbers.guess(node, key, span)
    }

    /// The number to which a key leads.
    pub fn get(&self, key: &IndexKey) -> Option<u32>
        ensures { result ≡ tree.get cell_key_cmp self.now.numbers.places key.now }
    {
        self.numbers.places.get(key).copied()
    }

    /// Notes a number that was found, and hadn't been guessed.
    pub fn note_missed(&mut self, key: &IndexKey, number: u32)
        ensures { self.new.numbers.places ≡ self.old.numbers.places }
    {
        let guess = Guess {
            hash: key.hash(),
            place: number,
        };
        let cells = self.numbers.places.len();
        self.numbers.guesses.note_missed(guess, cells);
    }

    /// A key leads to this number from now on.
    pub fn add(&mut self, key: IndexKey, number: u32) -> Result<(), NoMemory>
        ensures ok { OnOk result (tree.Updates cell_key_cmp self.old.numbers.places
            self.new.numbers.places key (Some number)) }
        ensures err { OnErr result
            (tree.IsUnchanged self.old.numbers.places self.new.numbers.places) }
    {
        let hash = key.hash();
        self.numbers.places.insert(key, number)?;
        self.numbers.guesses.make_room(self.numbers.places.len());
        self.numbers.guesses.note(Guess {
            hash,
            place: number,
        });
        Ok(())
    }
}
