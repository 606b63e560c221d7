ghost use Rattle.std.specs.Prelude.{◌≡◌, ◌+◌, ◌<◌, ◌≤◌, [], ◌∷◌, List, ℤ};
ghost use Rattle.std.specs.Prelude.{length, Contains, IsOk, OnOk, OnErr, MatchOption};
ghost use Rattle.beam_values.specs.Bags.{IsSameBag};
ghost use Rattle.beam_values.specs.Marks.{least_mark};
ghost use Rattle.watermarks.specs.Holds.{IsLeast};

use crate::listed::Listed;
use beam_values::{Mark, NoMemory};
use std::alloc::Global;
use std::marker::Model;

/// The marks that hold a node back, each as often as it was added and not removed.
///
/// Contracts see them as a bag and the room that is kept: a place is the room of one more mark. Adding costs
/// the same however many are held. So does removing over many of them, where the oldest are removed first.
#[derive(Debug, Drop)]
pub struct Holds {
    listed: Listed,
}

impl Model for Holds {
    ghost use Rattle.std.specs.Prelude.{◌-◌};
    ghost use Rattle.watermarks.specs.Holds.{SeenHolds};

    ghost Value = { SeenHolds };

    ghost use Rattle.watermarks.specs.HeldMarks.{marks_of, AreKept};

    ghost view = { λ h. record {
      marks = marks_of h.listed.items.items;
      room = h.listed.items.cap - h.listed.items.len;
    } };

    ghost invariant = { λ h.
        AreKept h.listed.items.items h.listed.ordered h.listed.first h.listed.lowest };
}

impl Holds {
    /// Takes no memory.
    pub fn new(alloc: Global) -> Holds
        ensures { result ≡ record { marks = []; room = 0 } }
    {
        Holds {
            listed: Listed::new(alloc),
        }
    }

    /// Leaves at least `places` places kept.
    pub fn keep_room(&mut self, places: usize) -> Result<(), NoMemory>
        ensures marks { self.new.marks ≡ self.old.marks }
        ensures ok { OnOk result (places ≤ self.new.room) }
        ensures kept { self.old.room ≤ self.new.room }
        ensures err { OnErr result (self.new ≡ self.old) }
        ensures had { places ≤ self.old.room → IsOk result }
    {
        self.listed.items.reserve(places)?;
        Ok(())
    }

    /// Uses one place where one is kept, and then is never refused.
    pub fn add(&mut self, m: Mark) -> Result<(), NoMemory>
        ensures ok { OnOk result (IsSameBag self.new.marks (m ∷ self.old.marks)) }
        ensures err { OnErr result (self.new ≡ self.old) }
        ensures had { 0 < self.old.room → IsOk result }
        ensures used { self.old.room ≤ self.new.room + 1 }
    {
        self.listed.items.reserve(1)?;
        self.listed.add_kept(m);
        Ok(())
    }

    /// One more of a mark that is held already. Takes no memory, and uses no place.
    pub fn add_again(&mut self, m: Mark)
        requires held { Contains self.old.marks m }
        requires few { length self.old.marks < 18446744073709551615 }
        ensures added { IsSameBag self.new.marks (m ∷ self.old.marks) }
        ensures kept { self.old.room ≤ self.new.room }
    {
        self.listed.add_again(m);
    }

    /// Takes one of the mark out. Its place is kept.
    pub fn remove(&mut self, m: Mark)
        requires { Contains self.old.marks m }
        ensures taken { IsSameBag self.old.marks (m ∷ self.new.marks) }
        ensures kept { self.old.room ≤ self.new.room }
    {
        self.listed.remove(m);
    }

    /// The least mark that is held.
    pub fn least(&self) -> Option<Mark>
        ensures { MatchOption result (self.now.marks ≡ []) (IsLeast self.now.marks) }
    {
        let place = self.listed.least_place()?;
        Some(self.listed.items[place].mark)
    }

    /// The least mark that is held, or FINAL. The order in which the marks are listed is no matter.
    pub fn least_or_final(&self) -> Mark
        ensures { (marks : List ℤ) → IsSameBag self.now.marks marks → result ≡ least_mark marks }
    {
        let least = self.least().unwrap_or(Mark::FINAL);
        // What is read of a mark is that it isn't above FINAL.
        let _ms = least.ms();
        least
    }
}
