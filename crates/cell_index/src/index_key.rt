//! What the index finds cells by: the key of a cell, led by a number that nearly always decides.

ghost use Rattle.std.specs.Prelude.{◌≡◌, ◌+◌, ◌≤◌, ◌<◌, ◌^◌, fold, length, IfOk};
ghost use Rattle.std.specs.Ordering.{as_partial_cmp, eq_by_cmp, on, nat_cmp, then_cmp};
ghost use Rattle.std.specs.Cmp.{partial_order_from_own_ties};
ghost use Rattle.std.specs.Cmp.Rules.{comparing};
ghost use Rattle.std.proofs.Common.{rules};
ghost use Rattle.beam_values.specs.Cells.{span_cmp};
ghost use Rattle.beam_values.specs.Orders.{value_cmp};
ghost use Rattle.cell_index.specs.Indexes.{cell_key_cmp, place_cmp};
ghost use Rattle.cell_index.specs.Leads.{bytes_hash, key_hash, lead_of, spread, with_word, word_at};

use beam_values::{NoMemory, Span, Value, cmp_spans, cmp_values, unsigned_bits};
use std::alloc::Global;
use std::cmp::Ordering;
use std::marker::Model;

/// How many bytes a hash takes at a time.
const WORD: usize = 8;

/// What a cell is found by.
#[derive(Debug, Drop)]
pub struct CellKey {
    pub node: u32,
    pub span: Span,
    pub key: Value,
}

/// What a cell is found by, with its lead. Maps search their nodes from the first key on, so most of the
/// time of a new cell goes into comparisons: the lead decides nearly all of them by one word.
#[derive(Debug, Drop)]
pub struct IndexKey {
    lead: u64,
    cell: CellKey,
}

impl Model for IndexKey {
    ghost use Rattle.std.specs.Prelude.{◌≡◌};
    ghost use Rattle.std.specs.Coded.{codes};
    ghost use Rattle.beam_values.specs.contracts.value.Value as value;
    ghost use Rattle.cell_index.specs.declared.index_key.CellKey.{CellKey as CellKeyOf};
    ghost use Rattle.cell_index.specs.Leads.{lead_of};

    ghost Value = { CellKeyOf };

    ghost coded = { Prim.hlevel (codes, value.the_row.coded) };

    ghost view = { λ k. k.cell };

    ghost invariant = { λ k. k.lead ≡ lead_of k.cell.key k.cell.span };
}

impl IndexKey {
    pub fn of(cell: CellKey) -> IndexKey
        ensures { result ≡ cell }
    {
        IndexKey {
            lead: lead_of(&cell.key, cell.span),
            cell,
        }
    }

    /// What the cell is found by.
    pub fn into_cell(self) -> CellKey
        ensures { result ≡ self }
    {
        let IndexKey { lead: _, cell } = self;
        cell
    }

    pub fn cell(&self) -> &CellKey
        ensures { result.now ≡ self.now }
    {
        &self.cell
    }

    /// A hash of the node, the key and the start of the window. It is never 0, which says of a slot that
    /// it has no guess.
    pub fn hash(&self) -> u32
        ensures { 0 < result }
    {
        hash_with(self.cell.node, self.lead)
    }

    pub fn copy(&self, alloc: Global) -> Result<IndexKey, NoMemory>
        ensures { IfOk result (λ own. own ≡ self.now) }
    {
        let key = self.cell.key.copy(alloc)?;
        Ok(IndexKey {
            lead: self.lead,
            cell: CellKey {
                node: self.cell.node,
                span: self.cell.span,
                key,
            },
        })
    }
}

fn cmp_cells(a: &CellKey, b: &CellKey) -> Ordering
    ensures { result ≡ place_cmp a.now b.now }
{
    match a.node.cmp(&b.node) {
        Ordering::Equal => cmp_windows(a, b),
        decided => decided,
    }
}

fn cmp_windows(a: &CellKey, b: &CellKey) -> Ordering
    ensures { result
        ≡ then_cmp (on (λ k. k.span) span_cmp) (on (λ k. k.key) value_cmp) a.now b.now }
{
    match cmp_spans(a.span, b.span) {
        Ordering::Equal => cmp_values(&a.key, &b.key),
        decided => decided,
    }
}

impl PartialEq for IndexKey {
    ghost eq = { eq_by_cmp cell_key_cmp };

    ghost laws = { Prim.search (comparing, rules) depth 12 };

    fn eq(&self, other: &IndexKey) -> bool {
        self.cmp(other).is_eq()
    }
}

impl Eq for IndexKey {
    ghost laws = { Prim.search (comparing, rules) depth 12 };
}

impl PartialOrd for IndexKey {
    ghost partial_cmp = { as_partial_cmp cell_key_cmp };

    ghost laws = { partial_order_from_own_ties (Prim.search (comparing, rules) depth 12)
        (Prim.search (comparing, rules) depth 12) };

    fn partial_cmp(&self, other: &IndexKey) -> Option<Ordering> {
        Some(self.cmp(other))
    }
}

impl Ord for IndexKey {
    ghost cmp = { cell_key_cmp };

    ghost total = { Prim.search (comparing, rules) depth 12 };

    ghost matches_partial_cmp = { Prim.search (comparing, rules) depth 12 };

    ghost matches_eq = { Prim.search (comparing, rules) depth 12 };

    fn cmp(&self, other: &IndexKey) -> Ordering {
        match self.lead.cmp(&other.lead) {
            Ordering::Equal => cmp_cells(&self.cell, &other.cell),
            decided => decided,
        }
    }
}

/// A hash of a node and a lead, never 0. The start of the window is folded into the lower half first: what
/// stands above alone would only reach the highest bits, and the lowest ones choose the slot of a guess.
pub fn hash_with(node: u32, lead: u64) -> u32
    ensures { 0 < result }
{
    let named = lead ^ u64::from(node);
    let mixed = (named ^ named / (1 << 32)).wrapping_mul(0x9e37_79b9_7f4a_7c15);
    ((mixed / (1 << 32)) as u32).max(1)
}

/// The lead of a key and a window: later windows come first, so that the keys of the windows that most
/// elements come to lie side by side at the front. Keys that are neither numbers nor bytes share one in
/// each window.
pub fn lead_of(key: &Value, span: Span) -> u64
    ensures { result ≡ lead_of key.now span }
{
    let start = unsigned_bits(span.start()) % (1 << 32);
    (u64::from(u32::MAX) - start) * (1 << 32) + hash_of_key(key) / (1 << 32)
}

/// A hash of a key. Keys that are neither numbers nor bytes share one.
pub fn hash_of_key(key: &Value) -> u64
    ensures { result ≡ key_hash key.now }
{
    match key {
        Value::Int(number) => with_word(0, unsigned_bits(*number)),
        Value::Blob(bytes) => hash_of_bytes(bytes.as_slice()),
        _ => 0,
    }
}

/// The words of the bytes, and then the last eight bytes as one word more.
fn hash_of_bytes(bytes: &[u8]) -> u64
    ensures { result ≡ bytes_hash bytes.now }
{
    let count = bytes.len();
    if count < WORD {
        return hash_of_few(bytes);
    }
    let mut hash = 0;
    for at in 0..count / WORD {
        hash = with_word(spread(hash), word_at(bytes, at * WORD));
    }
    with_word(spread(hash), word_at(bytes, count - WORD))
}

/// A byte after the other.
fn hash_of_few(bytes: &[u8]) -> u64
    ensures { result ≡ fold with_word 0 bytes.now }
{
    let mut hash = 0;
    for byte in bytes {
        hash = with_word(hash, u64::from(*byte));
    }
    hash
}

/// The eight bytes from a place on, the last one highest.
fn word_at(bytes: &[u8], place: usize) -> u64
    requires { place + 8 ≤ length bytes.now }
    ensures { result ≡ word_at bytes.now place }
{
    u64::from_le_bytes([
        bytes[place],
        bytes[place + 1],
        bytes[place + 2],
        bytes[place + 3],
        bytes[place + 4],
        bytes[place + 5],
        bytes[place + 6],
        bytes[place + 7],
    ])
}

/// The upper half is added to the lower one, where it reaches all bits of what comes next.
fn spread(hash: u64) -> u64
    ensures { result ≡ spread hash }
{
    hash.wrapping_add(hash / (1 << 32))
}

/// The multiplier is 2^64 over the golden ratio: the higher a bit, the more bits it depends on.
fn with_word(hash: u64, word: u64) -> u64
    ensures { result ≡ with_word hash word }
{
    hash.wrapping_add(word).wrapping_mul(0x9e37_79b9_7f4a_7c15)
}
