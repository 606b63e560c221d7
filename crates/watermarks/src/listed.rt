//! Marks as a list that ascends, but for those that came out of order since it was put in order. Neither adding
//! a mark nor taking one out moves what lies behind it, unless that is little: what is spent stays with a count
//! of 0, and goes once as much was taken out as half of the list. A mark that comes last and is the greatest
//! keeps the order, so the list is put in order at most once for so many marks out of order as are looked
//! through one by one.

ghost use Rattle.std.specs.Prelude.{◌≡◌, ◌+◌, ◌<◌, ◌≤◌, ◌≤ℤ◌, ◌++◌, ◌-◌, ◌^◌, ◌∷◌, [], ℕ, int_lt, length};
ghost use Rattle.std.specs.Prelude.{filter, Contains, IfSome, None, slice_index_or};
ghost use Rattle.std.specs.Prelude.{vec_capacity, vec_len, MatchOption};
ghost use Rattle.beam_values.specs.Bags.{IsSameBag};
ghost use Rattle.watermarks.specs.HeldMarks.{is_held, marks_of, AreAscending, AreHeld, AreKept};
ghost use Rattle.watermarks.specs.HeldMarks.{AreSpent, ComesSo, EndsBy, IsHeldAt, IsLeastAt};
ghost use Rattle.watermarks.specs.declared.listed.Held.{Held as HeldOf};

use beam_values::Mark;
use std::alloc::Global;

/// A mark, and how often it is held.
#[derive(Clone, Copy, Debug)]
pub struct Held {
    pub mark: Mark,
    pub count: u64,
}

/// Held marks. The first ones ascend, and are found by halving. The others stand behind them, as they came.
#[derive(Debug, Drop)]
pub struct Listed {
    pub items: Vec<Held>,
    /// How many ascend.
    pub ordered: usize,
    /// How many of these stand before the first one that is held.
    pub first: usize,
    /// Where the lowest of the others stands.
    pub lowest: usize,
    /// How many more marks are taken out before the list is put in order again.
    pub patience: usize,
}

impl Listed {
    /// No mark. Takes no memory.
    pub fn new(alloc: Global) -> Listed
        ensures items { result.items.items ≡ [] }
        ensures capacity { vec_capacity result.items ≡ 0 }
        ensures kept { AreKept result.items.items result.ordered result.first result.lowest }
    {
        Listed {
            items: Vec::new(alloc),
            ordered: 0,
            first: 0,
            lowest: 0,
            patience: 0,
        }
    }

    /// One more mark, in a place that is kept.
    pub fn add_kept(&mut self, m: Mark)
        requires kept { AreKept self.old.items.items self.old.ordered self.old.first self.old.lowest }
        requires room { vec_len self.old.items < vec_capacity self.old.items }
        ensures kept { AreKept self.new.items.items self.new.ordered self.new.first self.new.lowest }
        ensures added { IsSameBag (marks_of self.new.items.items)
            (m ∷ marks_of self.old.items.items) }
        ensures longer { vec_len self.new.items ≤ vec_len self.old.items + 1 }
        ensures capacity { vec_capacity self.new.items ≡ vec_capacity self.old.items }
    {
        match how_it_comes(self.items.as_slice(), m) {
            Coming::Again => raise_last(self.items.as_mut_slice()),
            Coming::Later if self.ordered == self.items.len() => self.add_ordered(m),
            _ => self.add_behind(m),
        }
    }

    /// A mark that none before it is above, where all items ascend.
    fn add_ordered(&mut self, m: Mark)
        requires kept { AreKept self.old.items.items self.old.ordered self.old.first self.old.lowest }
        requires room { vec_len self.old.items < vec_capacity self.old.items }
        requires all { self.old.ordered ≡ length self.old.items.items }
        requires later { EndsBy m self.old.items.items }
        ensures kept { AreKept self.new.items.items self.new.ordered self.new.first self.new.lowest }
        ensures items { self.new.items.items
            ≡ self.old.items.items ++ record { mark = m; count = 1 } ∷ [] }
        ensures len { vec_len self.new.items ≡ vec_len self.old.items + 1 }
        ensures capacity { vec_capacity self.new.items ≡ vec_capacity self.old.items }
    {
        self.items.push_reserved(Held { mark: m, count: 1 });
        self.ordered = self.items.len();
    }

    /// A mark behind the items that ascend.
    fn add_behind(&mut self, m: Mark)
        requires kept { AreKept self.old.items.items self.old.ordered self.old.first self.old.lowest }
        requires room { vec_len self.old.items < vec_capacity self.old.items }
        ensures kept { AreKept self.new.items.items self.new.ordered self.new.first self.new.lowest }
        ensures items { self.new.items.items
            ≡ self.old.items.items ++ record { mark = m; count = 1 } ∷ [] }
        ensures len { vec_len self.new.items ≡ vec_len self.old.items + 1 }
        ensures capacity { vec_capacity self.new.items ≡ vec_capacity self.old.items }
    {
        let lowest = lowest_with(self.items.as_slice(), self.ordered, self.lowest, m);
        self.items.push_reserved(Held { mark: m, count: 1 });
        self.lowest = lowest;
    }

    /// One more of a mark that is held. Takes no memory, and uses no place.
    pub fn add_again(&mut self, m: Mark)
        requires kept { AreKept self.old.items.items self.old.ordered self.old.first self.old.lowest }
        requires held { Contains (marks_of self.old.items.items) m }
        requires few { length (marks_of self.old.items.items) < 18446744073709551615 }
        ensures kept { AreKept self.new.items.items self.new.ordered self.new.first self.new.lowest }
        ensures added { IsSameBag (marks_of self.new.items.items)
            (m ∷ marks_of self.old.items.items) }
        ensures fewer { vec_len self.new.items ≤ vec_len self.old.items }
        ensures capacity { vec_capacity self.new.items ≡ vec_capacity self.old.items }
    {
        let at = self.place_to_take(m);
        self.raise_at(at);
    }

    /// One of a mark goes, whose place is kept.
    pub fn remove(&mut self, m: Mark)
        requires kept { AreKept self.old.items.items self.old.ordered self.old.first self.old.lowest }
        requires held { Contains (marks_of self.old.items.items) m }
        ensures kept { AreKept self.new.items.items self.new.ordered self.new.first self.new.lowest }
        ensures taken { IsSameBag (marks_of self.old.items.items)
            (m ∷ marks_of self.new.items.items) }
        ensures fewer { vec_len self.new.items ≤ vec_len self.old.items }
        ensures capacity { vec_capacity self.new.items ≡ vec_capacity self.old.items }
    {
        let at = self.place_to_take(m);
        if at < self.ordered {
            self.take_ordered(at);
        } else {
            self.take_added(at);
        }
    }

    /// Where one is held than which none is lower.
    pub fn least_place(&self) -> Option<usize>
        requires { AreKept self.now.items.items self.now.ordered self.now.first self.now.lowest }
        ensures { MatchOption result (AreSpent self.now.items.items)
            (IsLeastAt self.now.items.items) }
    {
        let added = self.ordered < self.items.len();
        if self.first == self.ordered {
            return if added { Some(self.lowest) } else { None };
        }
        if added && self.items[self.lowest].mark.ms() < self.items[self.first].mark.ms() {
            Some(self.lowest)
        } else {
            Some(self.first)
        }
    }

    /// Where a mark is held: among those that ascend, or one of few others. Where it is neither, all are put in
    /// order.
    fn place_to_take(&mut self, m: Mark) -> usize
        requires kept { AreKept self.old.items.items self.old.ordered self.old.first self.old.lowest }
        requires held { Contains (marks_of self.old.items.items) m }
        ensures kept { AreKept self.new.items.items self.new.ordered self.new.first self.new.lowest }
        ensures same { IsSameBag (marks_of self.old.items.items) (marks_of self.new.items.items) }
        ensures place { IsHeldAt self.new.items.items m result }
        ensures fewer { vec_len self.new.items ≤ vec_len self.old.items }
        ensures capacity { vec_capacity self.new.items ≡ vec_capacity self.old.items }
    {
        if let Some(at) = place_of(self.items.as_slice().split_at(self.ordered).0, m) {
            return at;
        }
        if let Some(at) = place_of_added(self.items.as_slice(), self.ordered, m) {
            return at;
        }
        self.put_in_order();
        match place_of(self.items.as_slice(), m) {
            Some(at) => at,
            None => unreachable!(),
        }
    }

    /// One of the marks at a place goes, of those that ascend. After so many the list is put in order.
    fn take_ordered(&mut self, at: usize)
        requires kept { AreKept self.old.items.items self.old.ordered self.old.first self.old.lowest }
        requires ordered { at < self.old.ordered }
        requires held { (d : HeldOf) → 0 < (slice_index_or self.old.items.items at d).count }
        ensures kept { AreKept self.new.items.items self.new.ordered self.new.first self.new.lowest }
        ensures taken { (d : HeldOf) → IsSameBag (marks_of self.old.items.items)
            ((slice_index_or self.old.items.items at d).mark ∷ marks_of self.new.items.items) }
        ensures fewer { vec_len self.new.items ≤ vec_len self.old.items }
        ensures capacity { vec_capacity self.new.items ≡ vec_capacity self.old.items }
    {
        self.take_at(at);
        match self.patience.checked_sub(1) {
            Some(patience) => self.patience = patience,
            None => self.put_in_order(),
        }
    }

    /// One of the marks at a place goes, of the others.
    fn take_added(&mut self, at: usize)
        requires kept { AreKept self.old.items.items self.old.ordered self.old.first self.old.lowest }
        requires added { self.old.ordered ≤ at }
        requires within { at < length self.old.items.items }
        ensures kept { AreKept self.new.items.items self.new.ordered self.new.first self.new.lowest }
        ensures taken { (d : HeldOf) → IsSameBag (marks_of self.old.items.items)
            ((slice_index_or self.old.items.items at d).mark ∷ marks_of self.new.items.items) }
        ensures fewer { vec_len self.new.items ≤ vec_len self.old.items }
        ensures capacity { vec_capacity self.new.items ≡ vec_capacity self.old.items }
    {
        take_out(&mut self.items, at);
        self.lowest = lowest_from(self.items.as_slice(), self.ordered);
    }

    fn take_at(&mut self, at: usize)
        requires kept { AreKept self.old.items.items self.old.ordered self.old.first self.old.lowest }
        requires ordered { at < self.old.ordered }
        requires held { (d : HeldOf) → 0 < (slice_index_or self.old.items.items at d).count }
        ensures kept { AreKept self.new.items.items self.new.ordered self.new.first self.new.lowest }
        ensures taken { (d : HeldOf) → IsSameBag (marks_of self.old.items.items)
            ((slice_index_or self.old.items.items at d).mark ∷ marks_of self.new.items.items) }
        ensures len { vec_len self.new.items ≡ vec_len self.old.items }
        ensures capacity { vec_capacity self.new.items ≡ vec_capacity self.old.items }
    {
        lower(self.items.as_mut_slice(), at);
        self.first = first_held(self.items.as_slice(), self.first, self.ordered);
    }

    fn raise_at(&mut self, at: usize)
        requires kept { AreKept self.old.items.items self.old.ordered self.old.first self.old.lowest }
        requires within { at < length self.old.items.items }
        requires held { (d : HeldOf) → 0 < (slice_index_or self.old.items.items at d).count }
        requires room { (d : HeldOf)
            → (slice_index_or self.old.items.items at d).count + 1 < 2 ^ 64 }
        ensures kept { AreKept self.new.items.items self.new.ordered self.new.first self.new.lowest }
        ensures added { (d : HeldOf) → IsSameBag (marks_of self.new.items.items)
            ((slice_index_or self.old.items.items at d).mark ∷ marks_of self.old.items.items) }
        ensures len { vec_len self.new.items ≡ vec_len self.old.items }
        ensures capacity { vec_capacity self.new.items ≡ vec_capacity self.old.items }
    {
        raise(self.items.as_mut_slice(), at);
    }

    fn put_in_order(&mut self)
        ensures kept { AreKept self.new.items.items self.new.ordered self.new.first self.new.lowest }
        ensures same { IsSameBag (marks_of self.old.items.items) (marks_of self.new.items.items) }
        ensures ascend { AreAscending self.new.items.items }
        ensures all { self.new.ordered ≡ length self.new.items.items }
        ensures fewer { vec_len self.new.items ≤ vec_len self.old.items }
        ensures capacity { vec_capacity self.new.items ≡ vec_capacity self.old.items }
    {
        settle(&mut self.items);
        self.ordered = self.items.len();
        self.first = 0;
        self.lowest = 0;
        self.patience = self.items.len() / 2;
    }
}

/// How many marks that came out of order are looked through one by one.
const LOOKED_THROUGH: usize = 128;

/// How a mark comes behind the last item.
#[derive(Clone, Copy)]
enum Coming {
    /// That one holds it.
    Again,
    /// That one isn't above it.
    Later,
    Earlier,
}

fn how_it_comes(items: &[Held], m: Mark) -> Coming
    ensures { ComesSo m items.now result }
{
    let Some(last) = items.last() else {
        return Coming::Later;
    };
    if last.mark == m && last.count > 0 && last.count < u64::MAX {
        Coming::Again
    } else if last.mark.ms() <= m.ms() {
        Coming::Later
    } else {
        Coming::Earlier
    }
}

/// One more of the last mark.
fn raise_last(items: &mut [Held])
    requires some { 0 < length items.old }
    requires held { (d : HeldOf) → 0 < (slice_index_or items.old (length items.old - 1) d).count }
    requires room { (d : HeldOf)
        → (slice_index_or items.old (length items.old - 1) d).count + 1 < 2 ^ 64 }
    ensures marks { (k : ℕ) (d : HeldOf)
        → (slice_index_or items.new k d).mark ≡ (slice_index_or items.old k d).mark }
    ensures counts { (k : ℕ) (d : HeldOf)
        → (slice_index_or items.old k d).count ≤ (slice_index_or items.new k d).count }
    ensures others { (k : ℕ) (d : HeldOf) → (k + 1 ≡ length items.old → ⊥)
        → slice_index_or items.new k d ≡ slice_index_or items.old k d }
    ensures added { (d : HeldOf) → IsSameBag (marks_of items.new)
        ((slice_index_or items.old (length items.old - 1) d).mark ∷ marks_of items.old) }
{
    let last = items.len() - 1;
    raise(items, last);
}

/// Where a mark is held behind the items that ascend, the last first, where these are few.
fn place_of_added(items: &[Held], ordered: usize, m: Mark) -> Option<usize>
    requires { ordered ≤ length items.now }
    ensures { IfSome result
        (λ at. (ordered ≤ at) × (at < length items.now) × ((d : HeldOf) → (slice_index_or items.now at d).mark ≡ m)) }
{
    if items.len() - ordered > LOOKED_THROUGH {
        return None;
    }
    for at in (ordered..items.len()).rev() {
        if items[at].mark == m {
            return Some(at);
        }
    }
    None
}

/// One of the marks at a place goes, and with the last of them their item.
fn take_out(items: &mut Vec<Held>, at: usize)
    requires within { at < length items.old.items }
    requires held { (k : ℕ) (d : HeldOf) → at ≤ k → k < length items.old.items
        → 0 < (slice_index_or items.old.items k d).count }
    ensures front { (k : ℕ) (d : HeldOf) → k < at
        → slice_index_or items.new.items k d ≡ slice_index_or items.old.items k d }
    ensures held { (k : ℕ) (d : HeldOf) → at ≤ k → k < length items.new.items
        → 0 < (slice_index_or items.new.items k d).count }
    ensures taken { (d : HeldOf) → IsSameBag (marks_of items.old.items)
        ((slice_index_or items.old.items at d).mark ∷ marks_of items.new.items) }
    ensures fewer { (vec_len items.new ≤ vec_len items.old) × (at ≤ vec_len items.new) }
    ensures capacity { vec_capacity items.new ≡ vec_capacity items.old }
{
    lower(items.as_mut_slice(), at);
    if items[at].count == 0 {
        items.remove(at);
    }
}

/// Where the lowest item from a place on stands.
fn lowest_from(items: &[Held], from: usize) -> usize
    requires { from ≤ length items.now }
    ensures within { from < length items.now → (from ≤ result) × (result < length items.now) }
    ensures least { (k : ℕ) (d : HeldOf) → from ≤ k → k < length items.now
        → (slice_index_or items.now result d).mark ≤ℤ (slice_index_or items.now k d).mark }
{
    let mut lowest = from;
    for at in from..items.len() {
        if items[at].mark.ms() < items[lowest].mark.ms() {
            lowest = at;
        }
    }
    lowest
}

/// Where the lowest of the items behind those that ascend stands, once a mark stands behind them.
fn lowest_with(items: &[Held], ordered: usize, lowest: usize, m: Mark) -> usize
    requires ordered { ordered ≤ length items.now }
    requires lowest { ordered < length items.now → lowest < length items.now }
    ensures within { result ≤ length items.now }
    ensures last { (d : HeldOf) → result ≡ length items.now → ordered < length items.now
        → m ≤ℤ (slice_index_or items.now lowest d).mark }
    ensures same { (d : HeldOf) → result < length items.now
        → (result ≡ lowest) × ((slice_index_or items.now lowest d).mark ≤ℤ m) }
    ensures some { result < length items.now → ordered < length items.now }
{
    if ordered == items.len() || m.ms() < items[lowest].mark.ms() {
        items.len()
    } else {
        lowest
    }
}

/// Where a mark is held, of items that ascend.
fn place_of(items: &[Held], m: Mark) -> Option<usize>
    requires { AreAscending items.now }
    ensures place { IfSome result (IsHeldAt items.now m) }
    ensures none { result ≡ None → Contains (marks_of items.now) m → ⊥ }
{
    let from = items.partition_point(|held| is_below(held, m));
    let at = first_held(items, from, items.len());
    if at < items.len() && items[at].mark == m {
        Some(at)
    } else {
        None
    }
}

fn is_below(held: &Held, m: Mark) -> bool
    ensures { result ≡ int_lt held.now.mark m }
{
    held.mark.ms() < m.ms()
}

/// The first place from one on, below another, at which a mark is held.
fn first_held(items: &[Held], from: usize, to: usize) -> usize
    requires from { from ≤ to }
    requires to { to ≤ length items.now }
    ensures from { from ≤ result }
    ensures to { result ≤ to }
    ensures spent { (k : ℕ) (d : HeldOf) → from ≤ k → k < result
        → (slice_index_or items.now k d).count ≡ 0 }
    ensures held { (d : HeldOf) → result < to → 0 < (slice_index_or items.now result d).count }
{
    let mut at = from;
    'spent: while at < to && items[at].count == 0 {
        at += 1;
    }
    at
}

/// One more of the mark at a place.
fn raise(items: &mut [Held], at: usize)
    requires within { at < length items.old }
    requires room { (d : HeldOf) → (slice_index_or items.old at d).count + 1 < 2 ^ 64 }
    ensures marks { (k : ℕ) (d : HeldOf)
        → (slice_index_or items.new k d).mark ≡ (slice_index_or items.old k d).mark }
    ensures counts { (k : ℕ) (d : HeldOf)
        → (slice_index_or items.old k d).count ≤ (slice_index_or items.new k d).count }
    ensures others { (k : ℕ) (d : HeldOf) → (k ≡ at → ⊥)
        → slice_index_or items.new k d ≡ slice_index_or items.old k d }
    ensures added { (d : HeldOf) → IsSameBag (marks_of items.new)
        ((slice_index_or items.old at d).mark ∷ marks_of items.old) }
{
    items[at].count += 1;
}

/// One of the marks at a place goes.
fn lower(items: &mut [Held], at: usize)
    requires within { at < length items.old }
    requires held { (d : HeldOf) → 0 < (slice_index_or items.old at d).count }
    ensures marks { (k : ℕ) (d : HeldOf)
        → (slice_index_or items.new k d).mark ≡ (slice_index_or items.old k d).mark }
    ensures others { (k : ℕ) (d : HeldOf) → (k ≡ at → ⊥)
        → slice_index_or items.new k d ≡ slice_index_or items.old k d }
    ensures taken { (d : HeldOf) → IsSameBag (marks_of items.old)
        ((slice_index_or items.old at d).mark ∷ marks_of items.new) }
{
    items[at].count -= 1;
}

/// Puts the items in order, those of one mark together, without those that are spent. Takes no memory.
fn settle(items: &mut Vec<Held>)
    ensures same { IsSameBag (marks_of items.old.items) (marks_of items.new.items) }
    ensures ascend { AreAscending items.new.items }
    ensures held { AreHeld items.new.items }
    ensures fewer { vec_len items.new ≤ vec_len items.old }
    ensures capacity { vec_capacity items.new ≡ vec_capacity items.old }
{
    sort_by_mark(items.as_mut_slice());
    gather(items.as_mut_slice());
    drop_spent(items);
}

fn sort_by_mark(items: &mut [Held])
    ensures same { IsSameBag (marks_of items.old) (marks_of items.new) }
    ensures ascend { AreAscending items.new }
{
    items.sort_unstable_by_key(|held| held.mark.ms());
}

fn drop_spent(items: &mut Vec<Held>)
    ensures items { items.new.items ≡ filter is_held items.old.items }
    ensures fewer { vec_len items.new ≤ vec_len items.old }
    ensures capacity { vec_capacity items.new ≡ vec_capacity items.old }
{
    items.retain(|held| held.count > 0);
}

/// Counts items of one mark that stand side by side as the last of them.
fn gather(items: &mut [Held])
    ensures marks { (k : ℕ) (d : HeldOf)
        → (slice_index_or items.new k d).mark ≡ (slice_index_or items.old k d).mark }
    ensures same { IsSameBag (marks_of items.old) (marks_of items.new) }
{
    for next in 1..items.len() {
        pour(items, next);
    }
}

/// What the item before a place counts is counted there, if both are of one mark and it is not too much.
fn pour(items: &mut [Held], next: usize)
    requires behind { 0 < next }
    requires within { next < length items.old }
    ensures marks { (k : ℕ) (d : HeldOf)
        → (slice_index_or items.new k d).mark ≡ (slice_index_or items.old k d).mark }
    ensures same { IsSameBag (marks_of items.old) (marks_of items.new) }
{
    let before = items[next - 1];
    let here = items[next];
    if before.mark != here.mark {
        return;
    }
    let Some(count) = before.count.checked_add(here.count) else {
        return;
    };
    items[next - 1].count = 0;
    items[next].count = count;
}
