//! Boxes of keys that were made lately, so that keys that are equal mostly lie in memory once for each
//! worker; and of the parts that are the same in all that a function tags. A slot is read and then
//! compared, so that a box that is lost, or never found, costs a box more and nothing else.

ghost use Rattle.std.specs.Prelude.{◌≡◌, IfOk, IfSome, IsTrue};
ghost use Rattle.beam_model.specs.Values.{blob, int, null};

use beam_values::{Boxed, Bytes, NoMemory, Value, cmp_values};
use std::alloc::Global;

/// How many slots there are once there is a key.
const FEWEST: usize = 256;

/// How many slots there are at most: a key in a slot stays in memory, also where it never comes again.
const MOST: usize = 16384;

/// Longer keys get no slot, so that what the slots keep in memory stays small: some 3 MB.
const LONGEST: usize = 128;

/// Where so many keys are found for each that is made, more slots would gain little.
const ENOUGH: usize = 32;

/// How many bytes are compared one by one.
const FEW: usize = 16;

/// The last key of each slot, which a hash of its bytes chooses. The number of slots is 0 or a power of two.
#[derive(Drop)]
pub struct SharedKeys {
    slots: Vec<Option<Boxed<Value>>>,
    // How many keys were found, and how many made, since it was last looked whether the slots are too few.
    found: usize,
    made: usize,
    null: Option<Boxed<Value>>,
    number: Option<Boxed<Value>>,
}

impl SharedKeys {
    /// Takes no memory.
    pub fn new(alloc: Global) -> SharedKeys {
        SharedKeys {
            slots: Vec::new(alloc),
            found: 0,
            made: 0,
            null: None,
            number: None,
        }
    }

    /// `Null`, of which there is one box.
    pub fn shared_null(&mut self, alloc: Global) -> Result<Boxed<Value>, NoMemory>
        ensures { IfOk result (λ shared. shared ≡ null) }
    {
        shared_from(&mut self.null, alloc, Value::Null)
    }

    /// A number, of which there is one box as long as no other number comes.
    pub fn shared_number(&mut self, alloc: Global, n: i64) -> Result<Boxed<Value>, NoMemory>
        ensures { IfOk result (λ shared. shared ≡ int n) }
    {
        shared_from(&mut self.number, alloc, Value::Int(n))
    }

    /// The key of these bytes: a share of one that was made lately, or a new one. Memory for slots may be
    /// refused, and then keys are made more often.
    pub fn shared(&mut self, alloc: Global, bytes: &[u8]) -> Result<Boxed<Value>, NoMemory>
        ensures { IfOk result (λ key. key ≡ blob bytes.now) }
    {
        if bytes.len() > LONGEST {
            return made(alloc, bytes);
        }
        let hash = hash_of_bytes(bytes);
        if let Some(known) = self.known(hash, bytes) {
            let key = known.share()?;
            self.found = self.found.saturating_add(1);
            return Ok(key);
        }
        let key = made(alloc, bytes)?;
        self.note(hash, key.share()?);
        Ok(key)
    }

    /// The key in the slot of a hash, if it is that of these bytes.
    fn known(&self, hash: u64, bytes: &[u8]) -> Option<&Boxed<Value>>
        ensures { IfSome result (λ key. key.now ≡ blob bytes.now) }
    {
        match self.slots.get(slot_of(hash, self.slots.len())) {
            Some(Some(key)) if is_of(key.get(), bytes) => Some(key),
            _ => None,
        }
    }

    /// Puts a key that was made into its slot, in the place of what is there.
    fn note(&mut self, hash: u64, key: Boxed<Value>) {
        self.make_room();
        self.made = self.made.saturating_add(1);
        let slot = slot_of(hash, self.slots.len());
        if slot < self.slots.len() {
            self.slots[slot] = Some(key);
        }
    }

    /// Adds slots where keys are made too often. It looks once for so many of these as a quarter of the
    /// slots. Where there is no memory, the slots stay as they are.
    fn make_room(&mut self) {
        let count = self.slots.len();
        if self.made < count / 4 {
            return;
        }
        if count < MOST && self.found / ENOUGH <= self.made {
            self.grow(count.saturating_mul(2).max(FEWEST));
        }
        self.found = 0;
        self.made = 0;
    }

    /// A key that has another slot then is made anew when it comes.
    fn grow(&mut self, count: usize) {
        let _ = self.slots.resize_with(count, || None);
    }
}

/// A share of what is in a slot, where it is this value, or a new box, which goes into the slot.
fn shared_from(
    slot: &mut Option<Boxed<Value>>,
    alloc: Global,
    value: Value,
) -> Result<Boxed<Value>, NoMemory>
    ensures { IfOk result (λ shared. shared ≡ value) }
{
    if let Some(known) = slot.as_ref()
        && cmp_values(known.get(), &value).is_eq()
    {
        return known.share();
    }
    let made = Boxed::new(alloc, value)?;
    *slot = Some(made.share()?);
    Ok(made)
}

fn made(alloc: Global, bytes: &[u8]) -> Result<Boxed<Value>, NoMemory>
    ensures { IfOk result (λ key. key ≡ blob bytes.now) }
{
    Boxed::new(alloc, Value::Blob(Bytes::from_slice(alloc, bytes)?))
}

/// The slot of a hash, where the number of slots is a power of two.
fn slot_of(hash: u64, count: usize) -> usize {
    hash as usize & count.saturating_sub(1)
}

fn is_of(key: &Value, bytes: &[u8]) -> bool
    ensures { IsTrue result → key.now ≡ blob bytes.now }
{
    match key {
        Value::Blob(own) => is_same(own.as_slice(), bytes),
        _ => false,
    }
}

/// Few bytes, as most keys have, are compared one by one: `==` of slices takes longer to begin.
fn is_same(own: &[u8], bytes: &[u8]) -> bool
    ensures { IsTrue result → own.now ≡ bytes.now }
{
    if own.len() != bytes.len() {
        return false;
    }
    if own.len() > FEW {
        return own == bytes;
    }
    for (at, byte) in own.iter().enumerate() {
        if *byte != bytes[at] {
            return false;
        }
    }
    true
}

/// The length comes last and mixes once more, so that the low bits depend on all bytes.
fn hash_of_bytes(bytes: &[u8]) -> u64 {
    let mut hash = 0;
    let (words, rest) = bytes.as_chunks::<8>();
    for word in words {
        hash = mixed(hash, u64::from_le_bytes(*word));
    }
    mixed(mixed(hash, word_of(rest)), bytes.len() as u64)
}

/// All the bytes in one word, where they are at most 8: from 4 on as the first four and the last four.
fn word_of(bytes: &[u8]) -> u64 {
    if let (Some(first), Some(last)) = (bytes.first_chunk::<4>(), bytes.last_chunk::<4>()) {
        return half_of(first).rotate_left(32) ^ half_of(last);
    }
    let mut word: u64 = 0;
    for byte in bytes {
        word = word.rotate_left(8) ^ u64::from(*byte);
    }
    word
}

fn half_of(bytes: &[u8; 4]) -> u64 {
    u64::from(u32::from_le_bytes(*bytes))
}

/// The multiplier is 2^64 over the golden ratio. The rotation brings the bits that depend on all others
/// to where the next step, and the slot, have them first.
fn mixed(hash: u64, word: u64) -> u64 {
    (hash ^ word)
        .wrapping_mul(0x9e37_79b9_7f4a_7c15)
        .rotate_left(32)
}
