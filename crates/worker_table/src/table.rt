//! How a table is made and ended, and how its passes are parted and joined.
ghost use Rattle.std.specs.Prelude.{◌≡◌, ◌<◌, ◌≤◌, ◌++◌, ◌∷◌, [], List, None, IfOk};
ghost use Rattle.std.specs.List.{AllByRecursion, sum_by};
ghost use Rattle.turn_desk.specs.Notes.{IsSound, size_of, opening_note, kept_part, given_part};
ghost use Rattle.turn_desk.specs.Notes.{joined_note};
ghost use Rattle.book_core.specs.Runs.{Reached};
ghost use Rattle.book_core.specs.Work.{Surroundings};
ghost use Rattle.worker_table.specs.Ends.{IsEnded};
ghost use Rattle.worker_table.specs.Fits.{Fits, IsBookOf};
ghost use Rattle.worker_table.specs.Notes.{Owner, fresh};
ghost use Rattle.known_jobs.specs.Jobs.{Setting, setting_for};
ghost use Rattle.worker_table.specs.Passes.{IsOf, note_of_pass, setting_of, slot_of};

use crate::did::nobody;
use crate::held::{Shared, TableSetting};
use crate::pass::{Table, WorkerPass};
use beam_values::NoMemory;
use book_core::Book;
use book_core::laws::books_with_no_job_left_are_through;
use std::alloc::Global;
use turn_desk::{Desk, Unseen};

impl Table {
    /// A table with this book, and its first pass. The proof of the call picks what is known outside the book.
    /// Where there is no memory, the book is dropped.
    pub fn new(alloc: Global, book: Book) -> Result<(Table, WorkerPass), NoMemory>
        ghost known: { Surroundings }
        requires reached { Reached known.told book }
        requires slots { book.slots ≡ [] }
        ensures table { IfOk result (λ r. IsOf r.0 r.1) }
        ensures setting { IfOk result (λ r. setting_of r.0 ≡ setting_for known book) }
        ensures note { IfOk result (λ r. note_of_pass r.1 ≡ opening_note (fresh ∷ [])) }
    {
        let setting = picked(&book);
        let owners = nobody();
        let book = Box::new(alloc, book)?;
        let Ok((desk, own)) = Desk::new_with(alloc, Shared { book, owners }, setting) else {
            return Err(NoMemory);
        };
        let pass = WorkerPass {
            pass: Some(own),
            slot: None,
        };
        Ok((Table { desk }, pass))
    }

    /// Where so many passes work, or four if that is more, the others wait until one of these ends or steps aside.
    pub fn limit_active(&self, most: u64) {
        self.desk.limit_active(most);
    }

    /// Splits off a pass, which has no slot.
    pub fn split_pass(&self, pass: &mut WorkerPass) -> WorkerPass
        requires table { IsOf self.now pass.old }
        requires free { 0 < (note_of_pass pass.old).free }
        ensures table { IsOf self.now pass.new }
        ensures kept { note_of_pass pass.new
            ≡ kept_part (note_of_pass pass.old).about (note_of_pass pass.old) }
        ensures split { IsOf self.now result }
        ensures given { note_of_pass result ≡ given_part (fresh ∷ []) (note_of_pass pass.old) }
    {
        let Some(mut own) = pass.pass.take() else {
            unreachable!();
        };
        let split = self.desk.split_pass(&mut own);
        pass.pass = Some(own);
        WorkerPass {
            pass: Some(split),
            slot: None,
        }
    }

    /// Joins another pass into this one, which keeps its slot.
    pub fn join_pass(&self, pass: &mut WorkerPass, other: WorkerPass)
        requires table { IsOf self.now pass.old }
        requires other { IsOf self.now other }
        ensures table { IsOf self.now pass.new }
        ensures note { note_of_pass pass.new
            ≡ joined_note ((note_of_pass pass.old).about ++ (note_of_pass other).about)
            (note_of_pass pass.old) (note_of_pass other) }
        ensures slot { slot_of pass.new ≡ slot_of pass.old }
    {
        let WorkerPass {
            pass: joined,
            slot: _,
        } = other;
        let (Some(mut own), Some(joined)) = (pass.pass.take(), joined) else {
            unreachable!();
        };
        self.desk.join_pass(&mut own, joined);
        pass.pass = Some(own);
    }

    /// Ends the table, by the pass into which all others were joined, and gives the book back: as they noted it, and
    /// with no slot but theirs.
    pub fn close(self, pass: WorkerPass) -> Book
        requires table { IsOf self pass }
        requires all { size_of (note_of_pass pass) ≡ 4294967296 }
        ensures book { IsBookOf (setting_of self) result }
        ensures sound { IsSound (note_of_pass pass) }
        ensures fits { (owners : List Owner) × Fits (setting_of self)
            result owners (note_of_pass pass) }
        ensures ended { AllByRecursion (λ entry. IsEnded result entry.ending)
            (note_of_pass pass).about }
        ensures calls { result.calls ≤ sum_by (λ entry. entry.calls) (note_of_pass pass).about }
        ensures reads { result.reads ≤ sum_by (λ entry. entry.reads) (note_of_pass pass).about }
    {
        let Table { desk } = self;
        let WorkerPass { pass: own, slot: _ } = pass;
        let Some(own) = own else {
            unreachable!();
        };
        let Shared { book, owners: _ } = desk.close(own);
        books_with_no_job_left_are_through();
        Box::into_inner(book)
    }
}

// What stays as it is while a table stands, which the proof of the call picks.
fn picked(_of: &Book) -> Unseen<TableSetting>
    ghost setting: { Setting }
    ensures { result.value ≡ setting }
{
    Unseen::of()
}
