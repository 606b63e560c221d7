ghost use Rattle.std.specs.Prelude.{◌≡◌, [], ◌∷◌, ◌++◌, Some, None, OnOk, OnErr, length, take};
ghost use Rattle.beam_values.specs.Marks.{seen_after};

use crate::{Logged, Receipt};
use beam_values::{Arrival, Element, Estimator, List, NoMemory, Time};
use std::alloc::Global;
use std::marker::Model;
use watermarks::observe;

/// How many elements a bundle mostly puts out at most: one for each position of a bundle of the usual size.
/// The first one asks for the room of all, so that the list needn't grow in steps in each bundle.
const USUAL_COUNT: usize = 64;

/// What a bundle has put out so far. Contracts see it as the receipt that it would seal.
#[derive(Debug, Drop)]
pub struct Staging {
    receipt: Receipt,
    // For how many elements the first one asks room.
    expected: usize,
}

impl Model for Staging {
    ghost use Rattle.bundle_commit.specs.declared.job.Receipt.{Receipt};
    ghost use Rattle.bundle_commit.specs.contracts.job.Receipt as receipts;

    ghost Value = { Receipt };

    ghost coded = { receipts.the_row.coded };

    ghost view = { λ s. s.receipt };
}

impl Staging {
    /// Nothing is put out yet. `seen` is what the estimator has seen before. Takes no memory.
    pub fn new(alloc: Global, seen: Time) -> Staging
        ensures { result ≡ record { arrivals = []; seen = seen; logged = None } }
    {
        Staging::expecting(alloc, seen, USUAL_COUNT)
    }

    /// The same for a bundle that mostly puts out so many elements at most. More of them only take longer.
    pub fn expecting(alloc: Global, seen: Time, count: usize) -> Staging
        ensures { result ≡ record { arrivals = []; seen = seen; logged = None } }
    {
        Staging {
            receipt: Receipt {
                arrivals: List::new(alloc),
                seen,
                logged: None,
            },
            expected: count.min(USUAL_COUNT),
        }
    }

    /// Adds an element that comes to a barrier.
    pub fn add(&mut self, node: u32, element: Element) -> Result<(), NoMemory>
        ensures ok { OnOk result (self.new ≡ record self.old {
          arrivals = self.old.arrivals
              ++ record { node = node; element = element } ∷ [];
        }) }
        ensures err { OnErr result (self.new ≡ self.old) }
    {
        if self.receipt.arrivals.is_empty() {
            let _ = self.receipt.arrivals.reserve(self.expected);
        }
        self.receipt.arrivals.push(Arrival { node, element })
    }

    /// Notes a position: the greatest time of its outputs, and the mark that it declared. What was seen
    /// never falls. Takes no memory.
    pub fn observe(&mut self, e: &Estimator, time: Option<Time>, declared: Option<Time>)
        ensures { self.new
            ≡ record self.old { seen = seen_after e.now self.old.seen time declared } }
    {
        self.receipt.seen = observe(e, self.receipt.seen, time, declared);
    }

    /// How many elements are put out.
    pub fn len(&self) -> usize
        ensures { result ≡ length self.now.arrivals }
    {
        self.receipt.arrivals.len()
    }

    /// What the estimator has seen.
    pub fn seen(&self) -> Time
        ensures { result ≡ self.now.seen }
    {
        self.receipt.seen
    }

    /// Keeps the first `count` elements, and takes back what was seen to a time that [`Staging::seen`] told
    /// before. Takes no memory.
    pub fn back_to(&mut self, count: usize, seen: Time)
        ensures { self.new
            ≡ record self.old { arrivals = take count self.old.arrivals; seen = seen } }
    {
        self.receipt.arrivals.truncate(count);
        self.receipt.seen = seen;
    }

    /// Notes what the calls of a stateful function left, in place of what was noted before. Takes no memory.
    pub fn put_logged(&mut self, logged: Logged)
        ensures { self.new ≡ record self.old { logged = Some logged } }
    {
        self.receipt.logged = Some(logged);
    }

    /// All that was put out, in order. Takes no memory.
    pub fn seal(self) -> Receipt
        ensures { result ≡ self }
    {
        let Staging { receipt, .. } = self;
        receipt
    }
}
