ghost use Rattle.std.specs.Prelude.{◌≡◌, ◌↔◌, ℕ, ◌+◌, ◌-◌, ◌*◌, ◌<◌, ◌≤◌, ◌^◌, List, [], Some};
ghost use Rattle.std.specs.Prelude.{length, take, drop, max, min, not, Option, true, false, IsTrue};
ghost use Rattle.std.specs.Prelude.{IsSomeAnd, IfNone, IfSome, OnSome, IsErrOf, IsOk, IsOkAnd, OnOk};
ghost use Rattle.std.specs.Prelude.{OnErr, IfOk, vec_capacity};
ghost use Rattle.std.specs.Borrow.{sem};
ghost use Rattle.std.specs.Io.BufRead.{Rests};
ghost use Rattle.beam_ports.specs.Counts.{Rose};
ghost use Rattle.beam_ports.specs.Files.{KeepsOpenings, Opening};
ghost use Rattle.beam_values.specs.Lines.{next_start};

use crate::Quiet;
use crate::lines::{ended, seen_line};
use crate::reading::{BLOCK, fill};
use beam_ports::{Failed, NoMemory, Store};
use dofn_traits::Look;
use std::alloc::Global;
use std::error::Error;
use std::fmt;
use std::marker::Model;

// So many bytes are added to a buffer at once.
const BLANK: usize = 4096;

/// Why a look at a file gave nothing.
#[derive(Clone, Copy, Debug, PartialEq, Eq)]
pub enum PageRefusal {
    /// A read failed; the store counted it.
    Failed,
    NoMemory,
}

impl fmt::Display for PageRefusal {
    ghost use Rattle.std.specs.Prelude.{Some};
    ghost use Rattle.sdf_library.specs.Messages.{page_message};

    ghost output = { λ refusal. Some (page_message refusal) };

    fn fmt<W: fmt::Write>(&self, f: &mut fmt::Formatter<W>) -> fmt::Result {
        match self {
            PageRefusal::Failed => write!(f, "reading the file failed"),
            PageRefusal::NoMemory => write!(f, "no memory"),
        }
    }
}

impl Error for PageRefusal {}

impl From<NoMemory> for PageRefusal {
    ghost use Rattle.std.specs.Prelude.{◌≡◌};
    ghost use Rattle.sdf_library.specs.declared.pager.PageRefusal.TheVariants as refusal;

    ghost from_gives = { λ _ e. e ≡ refusal.NoMemory };

    fn from(_e: NoMemory) -> PageRefusal {
        PageRefusal::NoMemory
    }
}

/// What is held of an opened file whose positions are worked: some bytes of it, which move on with the
/// positions, and what is known of the line that was worked last.
///
/// Contracts see the file's number and length, the bytes that are held with their offset, and what is known.
#[derive(Drop)]
pub struct Pager {
    file: u32,
    len: u64,
    base: u64,
    bytes: Vec<u8>,
    quiet: Quiet,
    // The line at each offset that is held before this one ends within what is held.
    whole_to: u64,
}

impl Model for Pager {
    ghost use Rattle.std.specs.Prelude.{◌+◌, ◌<◌, ◌≤◌, ◌^◌, length};
    ghost use Rattle.sdf_library.specs.Paging.{AreWhole, Paged};

    ghost Value = { Paged };

    ghost view = { λ it. record {
      file = it.file;
      len = it.len;
      base = it.base;
      bytes = it.bytes.items;
      quiet = it.quiet;
    } };

    ghost invariant = { λ it. (it.base + length it.bytes.items ≤ it.len)
        × (it.len < 2 ^ 64) × (it.quiet.to ≤ it.len)
        × AreWhole it.base it.bytes.items it.whole_to };
}

impl Pager {
    ghost use Rattle.sdf_library.specs.Paging.{HoldsFile, Serves, ShowsText, ReachesOn};
    ghost use Rattle.sdf_library.specs.Paging.{ReachesFurther, cut_where};
    ghost use Rattle.sdf_library.specs.Paging.{IsBounded, IsEnough, KeepsPage, block};
    ghost use Rattle.sdf_library.specs.Paging.{HoldsLine, IsLean, is_line_cut, noted_next};
    ghost use Rattle.sdf_library.specs.Paging.{held_from, page_at, shown_by};
    ghost use Rattle.sdf_library.specs.contracts.pager.Pager.{the_row};

    /// The pager of an opened file. It holds nothing of it yet.
    pub fn new(alloc: Global, file: u32, len: u64) -> Pager
        ensures { result ≡ record {
          file = file;
          len = len;
          base = 0;
          bytes = [];
          quiet = record { from = 0; to = 0 };
        } }
    {
        Pager {
            file,
            len,
            base: 0,
            bytes: Vec::new(alloc),
            quiet: Quiet { from: 0, to: 0 },
            whole_to: 0,
        }
    }

    /// What is held, as it is.
    pub fn bytes(&self) -> Look<'_>
        ensures bytes { result.bytes.now ≡ self.now.bytes }
        ensures base { result.base ≡ self.now.base }
        ensures len { result.len ≡ self.now.len }
        ensures within { self.now.base + length self.now.bytes ≤ self.now.len }
    {
        Look {
            bytes: self.bytes.as_slice(),
            base: self.base,
            len: self.len,
        }
    }

    /// How many bytes are held.
    pub fn held(&self) -> u64
        ensures { result ≡ length self.now.bytes }
    {
        self.bytes.len() as u64
    }

    /// Gives up what is held, and its memory. What is known of a line stays; a look reads again.
    pub fn release(&mut self)
        ensures { self.new ≡ record self.old { base = 0; bytes = [] } }
    {
        self.base = 0;
        self.whole_to = 0;
        free(&mut self.bytes);
    }

    /// Notes that the line which the position `p` stands in ends before `next`.
    pub fn note_line(&mut self, p: u64, next: u64)
        requires { next ≤ self.old.len }
        ensures { self.new ≡ record self.old { quiet = record { from = p; to = next } } }
    {
        self.quiet = Quiet { from: p, to: next };
    }

    /// The start of the line after the position `p`, where it is noted that no line starts at `p`.
    pub fn next_line(&self, p: u64) -> Option<u64>
        ensures noted { result ≡ noted_next p self.now.quiet }
        ensures within { IfSome result (λ next. (p < next) × (next ≤ self.now.len)) }
    {
        let Quiet { from, to } = self.quiet;
        if from < p && p < to { Some(to) } else { None }
    }

    /// Gives up what is held of the line that is noted, where that is more than two blocks.
    pub fn leave_line(&mut self)
        ensures small { length self.new.bytes ≤ 2 * block }
        ensures same { length self.old.bytes ≤ 2 * block → self.new ≡ self.old }
        ensures held { (opening : Option Opening)
            → HoldsFile opening self.old → HoldsFile opening self.new }
        ensures file { self.new.file ≡ self.old.file }
        ensures len { self.new.len ≡ self.old.len }
        ensures quiet { self.new.quiet ≡ self.old.quiet }
    {
        let next = self.quiet.to;
        if self.held() > 2 * BLOCK {
            self.keep(next, BLOCK);
        }
    }

    /// Holds what the position `p` needs, and the line there up to its end. Of a line that goes on past what
    /// is held one block after another is read, and each is looked through once. Where the line is held
    /// already, nothing is read.
    pub fn hold_line<S: Store>(&mut self, store: &mut S, p: u64) -> Result<(), PageRefusal>
        requires inside { p < self.old.len }
        requires open { IsSomeAnd (S.opened store.old self.old.file)
            (λ opening. opening.len ≡ self.old.len) }
        requires held { HoldsFile (S.opened store.old self.old.file) self.old }
        ensures serves { OnOk result (Serves self.new p) }
        ensures line { OnOk result (is_line_cut p self.new ≡ false) }
        ensures bounded { OnOk result (IsLean p self.new) }
        ensures enough { HoldsLine self.old p → IsOk result × (store.new ≡ store.old)
            × (length self.old.bytes ≤ 2 * block → self.new ≡ self.old) }
        ensures failed { IsErrOf result PageRefusal.Failed
            → Rose (S.faults store.old) (S.faults store.new) }
        ensures given_up { OnErr result (length self.new.bytes ≤ length self.old.bytes) }
        // After every answer:
        ensures file { self.new.file ≡ self.old.file }
        ensures len { self.new.len ≡ self.old.len }
        ensures quiet { self.new.quiet ≡ self.old.quiet }
        ensures open { IsSomeAnd (S.opened store.new self.new.file)
            (λ opening. opening.len ≡ self.new.len) }
        ensures held { HoldsFile (S.opened store.new self.new.file) self.new }
        ensures shown { ShowsText (S.opened store.new self.new.file) self.new }
        ensures told { S.files store.new ≡ S.files store.old }
        ensures kept { KeepsOpenings (S.opened store.old) (S.opened store.new) }
        ensures counts { S.faults store.old ≤ S.faults store.new }
    {
        let before = self.held();
        let held = self.find_line(store, p);
        if held.is_err() {
            self.cut_to(before);
        }
        held
    }

    // Holds the line at the position; after a refusal maybe more than before.
    fn find_line<S: Store>(&mut self, store: &mut S, p: u64) -> Result<(), PageRefusal>
        requires inside { p < self.old.len }
        requires open { IsSomeAnd (S.opened store.old self.old.file)
            (λ opening. opening.len ≡ self.old.len) }
        requires held { HoldsFile (S.opened store.old self.old.file) self.old }
        ensures serves { OnOk result (Serves self.new p) }
        ensures line { OnOk result (is_line_cut p self.new ≡ false) }
        ensures lean { OnOk result (IsLean p self.new) }
        ensures enough { HoldsLine self.old p → IsOk result × (store.new ≡ store.old)
            × (length self.old.bytes ≤ 2 * block → self.new ≡ self.old) }
        ensures failed { IsErrOf result PageRefusal.Failed
            → Rose (S.faults store.old) (S.faults store.new) }
        ensures file { self.new.file ≡ self.old.file }
        ensures len { self.new.len ≡ self.old.len }
        ensures quiet { self.new.quiet ≡ self.old.quiet }
        ensures held { HoldsFile (S.opened store.new self.new.file) self.new }
        ensures told { S.files store.new ≡ S.files store.old }
        ensures kept { KeepsOpenings (S.opened store.old) (S.opened store.new) }
        ensures counts { S.faults store.old ≤ S.faults store.new }
    {
        self.hold_start(store, p)?;
        if self.is_whole_at(p) {
            return Ok(());
        }
        match self.line_end(p) {
            Some(next) => {
                self.trim(p, next);
                Ok(())
            }
            None => {
                self.read_line(store, p)?;
                self.note_whole();
                Ok(())
            }
        }
    }

    // Holds the byte at the position, and the one before it.
    fn hold_start<S: Store>(&mut self, store: &mut S, p: u64) -> Result<(), PageRefusal>
        requires inside { p < self.old.len }
        requires open { IsSomeAnd (S.opened store.old self.old.file)
            (λ opening. opening.len ≡ self.old.len) }
        requires held { HoldsFile (S.opened store.old self.old.file) self.old }
        ensures serves { OnOk result (Serves self.new p) }
        ensures enough { Serves self.old p
            → IsOk result × (self.new ≡ self.old) × (store.new ≡ store.old) }
        ensures failed { IsErrOf result PageRefusal.Failed
            → Rose (S.faults store.old) (S.faults store.new) }
        ensures file { self.new.file ≡ self.old.file }
        ensures len { self.new.len ≡ self.old.len }
        ensures quiet { self.new.quiet ≡ self.old.quiet }
        ensures held { HoldsFile (S.opened store.new self.new.file) self.new }
        ensures told { S.files store.new ≡ S.files store.old }
        ensures kept { KeepsOpenings (S.opened store.old) (S.opened store.new) }
        ensures counts { S.faults store.old ≤ S.faults store.new }
    {
        if self.serves(p) {
            return Ok(());
        }
        self.give_up_before(p);
        self.read_on(store, BLOCK - self.held())?;
        self.note_whole();
        Ok(())
    }

    // Notes which lines end within what is held, so that each of them needn't be searched for its end.
    fn note_whole(&mut self)
        ensures { self.new ≡ self.old }
    {
        self.whole_to = self.base + ended(self.bytes.as_slice()) as u64;
    }

    // Whether it is noted that the line at the position ends within what is held, which is no more than two blocks.
    fn is_whole_at(&self, p: u64) -> bool
        requires { self.now.base ≤ p }
        ensures whole { IsTrue result → is_line_cut p self.now ≡ false }
        ensures small { IsTrue result → length self.now.bytes ≤ 2 * block }
    {
        p < self.whole_to && self.held() <= 2 * BLOCK
    }

    // Gives up what is more than two blocks, where the line after the one at the position starts at `next`.
    fn trim(&mut self, p: u64, next: u64)
        requires holds { HoldsLine self.old p }
        requires next { next ≡ self.old.base + next_start self.old.bytes (p - self.old.base) }
        ensures holds { HoldsLine self.new p }
        ensures lean { IsLean p self.new }
        ensures same { length self.old.bytes ≤ 2 * block → self.new ≡ self.old }
        ensures held { (opening : Option Opening)
            → HoldsFile opening self.old → HoldsFile opening self.new }
        ensures file { self.new.file ≡ self.old.file }
        ensures len { self.new.len ≡ self.old.len }
        ensures quiet { self.new.quiet ≡ self.old.quiet }
    {
        if self.held() > 2 * BLOCK {
            self.keep(p, (next - p).saturating_add(BLOCK));
        }
    }

    // Reads block after block of a line that goes on past what is held, up to its end.
    fn read_line<S: Store>(&mut self, store: &mut S, p: u64) -> Result<(), PageRefusal>
        requires inside { p < self.old.len }
        requires open { IsSomeAnd (S.opened store.old self.old.file)
            (λ opening. opening.len ≡ self.old.len) }
        requires held { HoldsFile (S.opened store.old self.old.file) self.old }
        requires serves { Serves self.old p }
        requires cut { is_line_cut p self.old ≡ true }
        ensures serves { OnOk result (Serves self.new p) }
        ensures line { OnOk result (is_line_cut p self.new ≡ false) }
        ensures lean { OnOk result (IsLean p self.new) }
        ensures failed { IsErrOf result PageRefusal.Failed
            → Rose (S.faults store.old) (S.faults store.new) }
        ensures file { self.new.file ≡ self.old.file }
        ensures len { self.new.len ≡ self.old.len }
        ensures quiet { self.new.quiet ≡ self.old.quiet }
        ensures held { HoldsFile (S.opened store.new self.new.file) self.new }
        ensures told { S.files store.new ≡ S.files store.old }
        ensures kept { KeepsOpenings (S.opened store.old) (S.opened store.new) }
        ensures counts { S.faults store.old ≤ S.faults store.new }
    {
        'blocks: loop {
            if self.read_block(store, p)? {
                return Ok(());
            }
        }
    }

    // Reads one block more of a line that goes on past what is held, and answers whether it ends there.
    fn read_block<S: Store>(&mut self, store: &mut S, p: u64) -> Result<bool, PageRefusal>
        requires inside { p < self.old.len }
        requires open { IsSomeAnd (S.opened store.old self.old.file)
            (λ opening. opening.len ≡ self.old.len) }
        requires held { HoldsFile (S.opened store.old self.old.file) self.old }
        requires serves { Serves self.old p }
        requires cut { is_line_cut p self.old ≡ true }
        ensures serves { OnOk result (Serves self.new p) }
        ensures line { IfOk result (λ ended. is_line_cut p self.new ≡ not ended) }
        ensures lean { OnOk result (IsLean p self.new) }
        ensures further { OnOk result
            (self.old.base + length self.old.bytes < self.new.base + length self.new.bytes) }
        ensures failed { IsErrOf result PageRefusal.Failed
            → Rose (S.faults store.old) (S.faults store.new) }
        ensures file { self.new.file ≡ self.old.file }
        ensures len { self.new.len ≡ self.old.len }
        ensures quiet { self.new.quiet ≡ self.old.quiet }
        ensures held { HoldsFile (S.opened store.new self.new.file) self.new }
        ensures told { S.files store.new ≡ S.files store.old }
        ensures kept { KeepsOpenings (S.opened store.old) (S.opened store.new) }
        ensures counts { S.faults store.old ≤ S.faults store.new }
    {
        let end = self.end();
        self.give_up_before(p);
        self.read_on(store, BLOCK)?;
        Ok(self.line_end(end).is_some())
    }

    // The start of the line after the one at an offset; none where that one goes on past what is held.
    fn line_end(&self, at: u64) -> Option<u64>
        requires from_base { self.now.base ≤ at }
        requires reached { at ≤ self.now.base + length self.now.bytes }
        ensures cut { IfNone result (is_line_cut at self.now ≡ true) }
        ensures whole { OnSome result (is_line_cut at self.now ≡ false) }
        ensures next { IfSome result (λ next.
            next ≡ self.now.base + next_start self.now.bytes (at - self.now.base)) }
    {
        let line = seen_line(self.bytes.as_slice(), self.base, self.len, at)?;
        Some(line.next)
    }

    /// Holds what the position `p` needs, at most a block, and with `more` more than before, at most a
    /// block more. Then shows what is held.
    pub fn look<S: Store>(
        &mut self,
        store: &mut S,
        p: u64,
        more: bool,
    ) -> Result<Look<'_>, PageRefusal>
        requires inside { p < self.old.len }
        requires open { IsSomeAnd (S.opened store.old self.old.file)
            (λ opening. opening.len ≡ self.old.len) }
        requires held { HoldsFile (S.opened store.old self.old.file) self.old }
        ensures len { IfOk result (λ look. look.len ≡ self.old.len) }
        ensures serves { IfOk result (λ look. Serves (shown_by self.old look) p) }
        ensures more { IfOk result (λ look. ReachesOn more self.old (shown_by self.old look)) }
        ensures further { IfOk result
            (λ look. ReachesFurther more p self.old (shown_by self.old look)) }
        ensures bounded { IfOk result
            (λ look. IsBounded block block more self.old (shown_by self.old look)) }
        ensures shown { IfOk result
            (λ look. ShowsText (S.opened store.new self.old.file) (shown_by self.old look)) }
        ensures enough { IsEnough more self.old p
            → IsOkAnd result (λ look. shown_by self.old look ≡ cut_where more p self.old)
            × (store.new ≡ store.old) }
        ensures failed { IsErrOf result PageRefusal.Failed
            → Rose (S.faults store.old) (S.faults store.new) }
        // After every answer; of the pager, once the look isn't used any more:
        ensures* page { sem 𝓛 (Rests the_row self.entry
            (λ new. KeepsPage (S.opened store.new self.old.file) self.old new
            × IfOk result (λ look. new ≡ shown_by self.old look)
            × OnErr result (length new.bytes ≤ length self.old.bytes))) }
        ensures open { IsSomeAnd (S.opened store.new self.old.file)
            (λ opening. opening.len ≡ self.old.len) }
        ensures told { S.files store.new ≡ S.files store.old }
        ensures kept { KeepsOpenings (S.opened store.old) (S.opened store.new) }
        ensures counts { S.faults store.old ≤ S.faults store.new }
    {
        self.hold_block(store, p, more)?;
        Ok(self.bytes())
    }

    // Holds what `look` shows.
    fn hold_block<S: Store>(&mut self, store: &mut S, p: u64, more: bool) -> Result<(), PageRefusal>
        requires inside { p < self.old.len }
        requires open { IsSomeAnd (S.opened store.old self.old.file)
            (λ opening. opening.len ≡ self.old.len) }
        requires held { HoldsFile (S.opened store.old self.old.file) self.old }
        ensures serves { OnOk result (Serves self.new p) }
        ensures more { OnOk result (ReachesOn more self.old self.new) }
        ensures further { OnOk result (ReachesFurther more p self.old self.new) }
        ensures bounded { OnOk result (IsBounded block block more self.old self.new) }
        ensures enough { IsEnough more self.old p
            → IsOk result × (self.new ≡ cut_where more p self.old) × (store.new ≡ store.old) }
        ensures given_up { OnErr result (length self.new.bytes ≤ length self.old.bytes) }
        ensures failed { IsErrOf result PageRefusal.Failed
            → Rose (S.faults store.old) (S.faults store.new) }
        ensures file { self.new.file ≡ self.old.file }
        ensures len { self.new.len ≡ self.old.len }
        ensures quiet { self.new.quiet ≡ self.old.quiet }
        ensures held { HoldsFile (S.opened store.new self.new.file) self.new }
        ensures told { S.files store.new ≡ S.files store.old }
        ensures kept { KeepsOpenings (S.opened store.old) (S.opened store.new) }
        ensures counts { S.faults store.old ≤ S.faults store.new }
    {
        self.hold_for(store, p, more)?;
        self.cut(more, p);
        Ok(())
    }

    // Holds what the position needs, and with `more` more than before, but no more than a block more.
    fn hold_for<S: Store>(&mut self, store: &mut S, p: u64, more: bool) -> Result<(), PageRefusal>
        requires inside { p < self.old.len }
        requires open { IsSomeAnd (S.opened store.old self.old.file)
            (λ opening. opening.len ≡ self.old.len) }
        requires held { HoldsFile (S.opened store.old self.old.file) self.old }
        ensures serves { OnOk result (Serves self.new p) }
        ensures more { OnOk result (ReachesOn more self.old self.new) }
        ensures further { OnOk result (ReachesFurther more p self.old self.new) }
        ensures bounded { OnOk result
            (IsBounded (max block (length self.old.bytes)) block more self.old self.new) }
        ensures enough { IsEnough more self.old p
            → IsOk result × (self.new ≡ self.old) × (store.new ≡ store.old) }
        ensures given_up { OnErr result (length self.new.bytes ≤ length self.old.bytes) }
        ensures failed { IsErrOf result PageRefusal.Failed
            → Rose (S.faults store.old) (S.faults store.new) }
        ensures file { self.new.file ≡ self.old.file }
        ensures len { self.new.len ≡ self.old.len }
        ensures quiet { self.new.quiet ≡ self.old.quiet }
        ensures held { HoldsFile (S.opened store.new self.new.file) self.new }
        ensures told { S.files store.new ≡ S.files store.old }
        ensures kept { KeepsOpenings (S.opened store.old) (S.opened store.new) }
        ensures counts { S.faults store.old ≤ S.faults store.new }
    {
        if self.is_enough(more, p) {
            return Ok(());
        }
        let before = self.held();
        self.give_up_before(p);
        let held = self.held();
        if more {
            // What was given up counts too, so that more is held than before.
            self.read_on(store, BLOCK.max((before - held).saturating_add(1)))?;
        } else {
            self.read_on(store, BLOCK - held)?;
        }
        Ok(())
    }

    // Gives up all but a block, from the byte before the position on, unless more was asked for.
    fn cut(&mut self, more: bool, p: u64)
        requires { p < self.old.len }
        ensures cut { self.new ≡ cut_where more p self.old }
        ensures all { more ≡ true → self.new ≡ self.old }
        ensures bounded { more ≡ false → length self.new.bytes ≤ block }
        ensures less { length self.new.bytes ≤ length self.old.bytes }
        ensures serves { Serves self.old p → Serves self.new p }
        ensures held { (opening : Option Opening)
            → HoldsFile opening self.old → HoldsFile opening self.new }
        ensures file { self.new.file ≡ self.old.file }
        ensures len { self.new.len ≡ self.old.len }
        ensures quiet { self.new.quiet ≡ self.old.quiet }
    {
        if !more && self.held() > BLOCK {
            self.keep(p, BLOCK);
        }
    }

    // Whether the position can be worked with what is held, and no more is asked for or no more is there.
    fn is_enough(&self, more: bool, p: u64) -> bool
        ensures enough { IsTrue result ↔ IsEnough more self.now p }
        ensures serves { IsTrue result → Serves self.now p }
        ensures within { self.now.base + length self.now.bytes ≤ self.now.len }
    {
        self.serves(p) && (!more || self.end() == self.len)
    }

    // Whether the byte at the position is held, and the one before it.
    fn serves(&self, p: u64) -> bool
        ensures serves { IsTrue result ↔ Serves self.now p }
        ensures within { self.now.base + length self.now.bytes ≤ self.now.len }
    {
        self.base <= p.saturating_sub(1) && p < self.end()
    }

    fn end(&self) -> u64
        ensures end { result ≡ self.now.base + length self.now.bytes }
        ensures within { result ≤ self.now.len }
    {
        self.base + self.bytes.len() as u64
    }

    // Gives up all but so many bytes from the byte before the position on.
    fn keep(&mut self, p: u64, most: u64)
        requires { p ≤ self.old.len }
        ensures page { self.new ≡ page_at p most self.old }
        ensures few { length self.new.bytes ≤ most }
        ensures less { length self.new.bytes ≤ length self.old.bytes }
        ensures held { (opening : Option Opening)
            → HoldsFile opening self.old → HoldsFile opening self.new }
    {
        self.give_up_before(p);
        self.cut_to(most);
    }

    // Gives up what stands before the byte before the position, so what is held begins there.
    fn give_up_before(&mut self, p: u64)
        requires { p ≤ self.old.len }
        ensures left { self.new ≡ held_from (p - 1) self.old }
        ensures within { self.new.base + length self.new.bytes ≤ self.new.len }
        ensures small { self.new.len < 2 ^ 64 }
    {
        let first = p.saturating_sub(1);
        if first < self.base {
            self.bytes.clear();
            self.whole_to = 0;
        } else {
            let skipped = ((first - self.base) as usize).min(self.bytes.len());
            drop_front(&mut self.bytes, skipped);
        }
        self.base = first;
        give_room_back(&mut self.bytes);
    }

    // Gives up all but the first bytes.
    fn cut_to(&mut self, most: u64)
        ensures { self.new ≡ record self.old { bytes = take most self.old.bytes } }
    {
        self.bytes.truncate(most as usize);
        self.whole_to = 0;
    }

    // Reads as many bytes more, or those up to the end of the file where they are fewer.
    fn read_on<S: Store>(&mut self, store: &mut S, count: u64) -> Result<(), PageRefusal>
        requires open { IsSomeAnd (S.opened store.old self.old.file)
            (λ opening. opening.len ≡ self.old.len) }
        requires held { HoldsFile (S.opened store.old self.old.file) self.old }
        ensures base { self.new.base ≡ self.old.base }
        ensures front { OnOk result (take (length self.old.bytes) self.new.bytes ≡ self.old.bytes) }
        ensures size { OnOk result (length self.new.bytes ≡ length self.old.bytes
            + min count (self.old.len - (self.old.base + length self.old.bytes))) }
        ensures err { OnErr result (self.new ≡ self.old) }
        ensures failed { IsErrOf result PageRefusal.Failed
            → Rose (S.faults store.old) (S.faults store.new) }
        ensures file { self.new.file ≡ self.old.file }
        ensures len { self.new.len ≡ self.old.len }
        ensures quiet { self.new.quiet ≡ self.old.quiet }
        ensures held { HoldsFile (S.opened store.new self.new.file) self.new }
        ensures told { S.files store.new ≡ S.files store.old }
        ensures kept { KeepsOpenings (S.opened store.old) (S.opened store.new) }
        ensures counts { S.faults store.old ≤ S.faults store.new }
    {
        let (held, end) = (self.held(), self.end());
        let wanted = count.min(self.len - end);
        make_room(&mut self.bytes, wanted as usize)?;
        match fill_behind(
            store,
            self.file,
            self.len,
            end,
            held as usize,
            &mut self.bytes,
        ) {
            Ok(()) => Ok(()),
            Err(Failed) => {
                self.bytes.truncate(held as usize);
                Err(PageRefusal::Failed)
            }
        }
    }
}

// Empties a buffer and gives its memory back.
fn free(bytes: &mut Vec<u8>)
    ensures empty { bytes.new.items ≡ [] }
    ensures freed { vec_capacity bytes.new ≡ 0 }
{
    bytes.clear();
    bytes.shrink_to_fit();
}

// Gives memory back where there is far more of it than bytes, as after a long line: room for two blocks stays.
fn give_room_back(bytes: &mut Vec<u8>)
    ensures { bytes.new.items ≡ bytes.old.items }
{
    let room = bytes.len().saturating_add(2 * BLOCK as usize);
    if bytes.capacity() / 4 > room {
        bytes.shrink_to(room);
    }
}

// Gives up the first ones. Where there are none the others, of a long line maybe many, stay where they lie.
fn drop_front(bytes: &mut Vec<u8>, count: usize)
    requires { count ≤ length bytes.old.items }
    ensures { bytes.new.items ≡ drop count bytes.old.items }
{
    if count > 0 {
        let left = bytes.len() - count;
        bytes.copy_within(count.., 0);
        bytes.truncate(left);
    }
}

// Adds so many bytes, which are to be filled.
fn make_room(bytes: &mut Vec<u8>, count: usize) -> Result<(), NoMemory>
    requires { length bytes.old.items + count < 2 ^ 64 }
    ensures size { OnOk result (length bytes.new.items ≡ length bytes.old.items + count) }
    ensures front { take (length bytes.old.items) bytes.new.items ≡ bytes.old.items }
    ensures err { OnErr result (bytes.new.items ≡ bytes.old.items) }
{
    let before = bytes.len();
    match add_blank(bytes, before + count) {
        Ok(()) => Ok(()),
        Err(refused) => {
            bytes.truncate(before);
            Err(refused)
        }
    }
}

// Adds zeros up to so many bytes, many at once: one by one they would cost a tenth of reading a file.
fn add_blank(bytes: &mut Vec<u8>, most: usize) -> Result<(), NoMemory>
    requires { length bytes.old.items ≤ most }
    ensures size { OnOk result (length bytes.new.items ≡ most) }
    ensures front { take (length bytes.old.items) bytes.new.items ≡ bytes.old.items }
{
    bytes.reserve(most - bytes.len())?;
    let blank = [0; BLANK];
    while bytes.len() < most {
        let part = (most - bytes.len()).min(BLANK);
        bytes.extend_from_slice(blank.as_slice().split_at(part).0)?;
    }
    Ok(())
}

// Fills what stands behind the first `kept` bytes with those of the file from `at` on.
fn fill_behind<S: Store>(
    store: &mut S,
    file: u32,
    len: u64,
    at: u64,
    kept: usize,
    bytes: &mut Vec<u8>,
) -> Result<(), Failed>
    requires open { IsSomeAnd (S.opened store.old file) (λ opening. opening.len ≡ len) }
    requires front { kept ≤ length bytes.old.items }
    requires fits { at + (length bytes.old.items - kept) ≤ len }
    ensures size { length bytes.new.items ≡ length bytes.old.items }
    ensures front { take kept bytes.new.items ≡ take kept bytes.old.items }
    ensures bytes { OnOk result ((text : List ℕ) → S.opened store.old file
        ≡ Some (record { len = len; text = Some text })
        → drop kept bytes.new.items ≡ take (length bytes.old.items - kept) (drop at text)) }
    ensures failed { OnErr result (Rose (S.faults store.old) (S.faults store.new)) }
    ensures told { S.files store.new ≡ S.files store.old }
    ensures kept { KeepsOpenings (S.opened store.old) (S.opened store.new) }
    ensures counts { S.faults store.old ≤ S.faults store.new }
{
    fill(
        store,
        file,
        len,
        at,
        bytes.as_mut_slice().split_at_mut(kept).1,
    )
}
