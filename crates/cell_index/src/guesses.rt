//! Guesses at the places of cells, by a hash of what a cell is found by. A guess is read and then
//! compared with the cell at its place, so that one that is wrong or lost costs time and nothing else: the
//! index copies the key and walks down its map twice.

ghost use Rattle.std.specs.Prelude.{◌≡◌, ◌<◌, ◌^◌, ℕ, [], All, Contains, IfSome};
ghost use Rattle.std.specs.BTreeMap.{BTreeMap as TreeMap};
ghost use Rattle.cell_index.specs.Indexes.{IsOfKey};
ghost use Rattle.cell_index.specs.declared.index_key.CellKey.{CellKey as CellKeyOf};

use std::alloc::Global;

/// A place at which a cell was found, by what has this hash. A hash of 0 says that there is none.
#[derive(Clone, Copy, Debug)]
pub struct Guess {
    pub hash: u32,
    pub place: u32,
}

const NO_GUESS: Guess = Guess { hash: 0, place: 0 };

/// How many slots there are once there is a cell: room for the cells of a usual window, so that few
/// guesses are lost before the slots grow.
const FEWEST: usize = 4096;

/// A guess may stand in any slot of a set of so many side by side: with one slot each, cells that share
/// it push each other out at every arrival. Divides the number of slots.
const WAYS: usize = 4;

/// The last guesses of each set of slots. The number of slots is 0 or a power of two.
///
/// Most cells get no more elements once their windows have passed, and need no guess. So the slots grow
/// where guesses of cells were missed, and not with the cells there are: few slots stay in the
/// processor's caches.
#[derive(Debug, Drop)]
pub struct Guesses {
    pub slots: Vec<Guess>,
    /// How often a cell that there is wasn't guessed, since the slots grew.
    missed: usize,
}

impl Guesses {
    /// Takes no memory.
    pub fn new(alloc: Global) -> Guesses
        ensures { result.slots.items ≡ [] }
    {
        Guesses {
            slots: Vec::new(alloc),
            missed: 0,
        }
    }

    /// The place that was noted last for a hash, if it is still there.
    pub fn place(&self, hash: u32) -> Option<u32>
        ensures { IfSome result
            (λ place. Contains self.now.slots.items (record { hash = hash; place = place })) }
    {
        let first = first_slot(hash, self.slots.len());
        for at in first..first + WAYS {
            let guess = self.guess_at(at)?;
            if guess.hash == hash {
                return Some(guess.place);
            }
        }
        None
    }

    fn guess_at(&self, slot: usize) -> Option<Guess>
        ensures { IfSome result (Contains self.now.slots.items) }
    {
        let guess = self.slots.get(slot)?;
        Some(*guess)
    }

    /// The first slot of the set that is empty or has this hash. Where there is none, the one whose cell
    /// was made first, since elements come to it least.
    fn slot_for(&self, hash: u32) -> usize {
        let first = first_slot(hash, self.slots.len());
        let mut oldest = first;
        let mut least = u32::MAX;
        for at in first..first + WAYS {
            match self.guess_at(at) {
                Some(guess) if guess.hash != hash && guess.hash != NO_GUESS.hash => {
                    if guess.place < least {
                        least = guess.place;
                        oldest = at;
                    }
                }
                _ => return at,
            }
        }
        oldest
    }

    /// Notes a guess in a slot of its set, in the place of what is there.
    pub fn note(&mut self, guess: Guess)
        ensures { (places : TreeMap CellKeyOf ℕ) → All (IsOfKey places) self.old.slots.items
            → IsOfKey places guess → All (IsOfKey places) self.new.slots.items }
    {
        let at = self.slot_for(guess.hash);
        if at < self.slots.len() {
            self.slots[at] = guess;
        }
    }

    /// Notes the guess of a cell that wasn't guessed, of so many cells.
    pub fn note_missed(&mut self, guess: Guess, cells: usize)
        ensures { (places : TreeMap CellKeyOf ℕ) → All (IsOfKey places) self.old.slots.items
            → IsOfKey places guess → All (IsOfKey places) self.new.slots.items }
    {
        self.missed = self.missed.saturating_add(1);
        self.make_room(cells);
        self.note(guess);
    }

    /// Makes room for the guesses of so many cells: the fewest slots at first, and more where there are
    /// fewer than two for each cell and guesses were missed for a quarter of the slots since they grew.
    /// Where there is no memory, the slots stay as they are.
    pub fn make_room(&mut self, cells: usize)
        ensures { (places : TreeMap CellKeyOf ℕ) → All (IsOfKey places) self.old.slots.items
            → All (IsOfKey places) self.new.slots.items }
    {
        let count = self.slots.len();
        if count < FEWEST || (count / 2 < cells && count / 4 < self.missed) {
            self.grow(count);
        }
    }

    /// Doubles the slots, of which there are so many, or makes the fewest.
    fn grow(&mut self, count: usize)
        ensures { (places : TreeMap CellKeyOf ℕ) → All (IsOfKey places) self.old.slots.items
            → All (IsOfKey places) self.new.slots.items }
    {
        self.missed = 0;
        let more = count.saturating_mul(2).max(FEWEST);
        if self.slots.resize(more, NO_GUESS).is_ok() {
            self.spread(count);
        }
    }

    /// Notes the guesses of the first slots anew, of which half have their sets among the slots added. Each
    /// is taken out before, so that none stays where it is not looked for.
    fn spread(&mut self, count: usize)
        ensures { (places : TreeMap CellKeyOf ℕ) → All (IsOfKey places) self.old.slots.items
            → All (IsOfKey places) self.new.slots.items }
    {
        for at in 0..count {
            if let Some(guess) = self.take_out(at) {
                self.note(guess);
            }
        }
    }

    /// None is left. The memory of the slots stays.
    pub fn forget(&mut self)
        ensures { self.new.slots.items ≡ [] }
    {
        self.slots.clear();
        self.missed = 0;
    }

    /// The guess of a slot, which is empty then.
    fn take_out(&mut self, slot: usize) -> Option<Guess>
        ensures taken { (places : TreeMap CellKeyOf ℕ) → All (IsOfKey places) self.old.slots.items
            → IfSome result (IsOfKey places) }
        ensures left { (places : TreeMap CellKeyOf ℕ) → All (IsOfKey places) self.old.slots.items
            → All (IsOfKey places) self.new.slots.items }
    {
        let guess = self.guess_at(slot)?;
        if guess.hash == NO_GUESS.hash || slot >= self.slots.len() {
            return None;
        }
        self.slots[slot] = NO_GUESS;
        Some(guess)
    }
}

/// The first slot of the set of a hash, where the number of slots is a power of two.
fn first_slot(hash: u32, count: usize) -> usize
    ensures { result < 2 ^ 32 }
{
    hash as usize & count.saturating_sub(1) & !(WAYS - 1)
}
