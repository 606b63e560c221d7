//! Positions of an item, worked one after another and then claimed by one claim of the last of them.
ghost use Rattle.std.specs.Prelude.{◌≡◌, ◌≤◌, ◌<◌, ◌≤ℤ◌, [], ◌∷◌, None, length, All, IfOk, IfErr};
ghost use Rattle.std.specs.Prelude.{IsTrue, OnOk, OnErr};
ghost use Rattle.beam_values.specs.Times.{greatest_time, least_time};
ghost use Rattle.beam_model.specs.Positions.{Emission};
ghost use Rattle.beam_model.specs.Spread.{emission_outputs};
ghost use Rattle.chain_exec.specs.Causes.{observed_shelf};
ghost use Rattle.chain_exec.specs.Positions.{IsNextOf, IsTimely};
ghost use Rattle.bundle_work.specs.Bundles.{CanRead, HasWorked, IsFit, IsRefusedAt, StaysAble};
ghost use Rattle.bundle_work.specs.Bundles.{counts_of};
ghost use Rattle.bundle_work.specs.Stretches.{CanClaimFrom, IsAhead, IsAheadRefused, IsStretchDone};
ghost use Rattle.bundle_work.specs.Stretches.{IsStretchRefused};
ghost use Rattle.bundle_work.specs.Trails.{cut_back};

use crate::claims::Claims;
use crate::kit::Kit;
use crate::trail::{Before, MOST, Trail};
use beam_ports::Store;
use beam_values::{NoMemory, Piece, Time};
use bundle_commit::{Receipt, Staging};
use chain_exec::{Buffers, ExecRefusal, Step, run_position};
use dofn_traits::Shelf;
use pipeline_graph::Graph;
use sdf_library::Pager;
use std::alloc::Global;
use std::mem;

/// Where the work on a piece stands.
#[derive(Clone, Copy)]
pub struct Progress {
    /// The position to work next.
    pub next: u64,
    /// The end of the range.
    pub end: u64,
    /// How many more positions may emit a value.
    pub room: u32,
}

/// How a stretch of positions ended.
#[derive(Clone, Copy)]
pub enum Stretch {
    /// All of them are claimed.
    Claimed(Progress),
    /// The range was shortened, and ends before the last of them. What lies past its end isn't staged.
    Cut,
}

/// How far positions were worked before they are claimed.
pub enum Ahead {
    /// Up to this one, and how it would go on.
    Worked { last: u64, onward: Progress },
    /// Work on this one was refused.
    Refused { p: u64, refusal: ExecRefusal },
}

/// How many positions a stretch may have doubles from one to the next of a worker, until one is cut: a long range takes
/// few turns, and where ranges are split often, little is worked that another one takes over.
pub fn longer(more: u32) -> u32
    ensures { result ≤ 63 }
{
    (more.min(MOST) * 2 + 1).min(MOST)
}

/// Works one position of a source with a kit, and stages what it brings. The pager is that of its item.
pub fn work_position<F: Shelf, S: Store>(
    alloc: Global,
    graph: &Graph,
    node: u32,
    kit: &mut Kit<F, S>,
    pager: &mut Pager,
    p: u64,
    buffers: &mut Buffers,
    staging: &mut Staging,
) -> Result<Step, ExecRefusal>
    requires able { CanRead graph.now node (S.opened kit.old.store pager.old.file) pager.old }
    requires inside { p < pager.old.len }
    ensures worked { IfOk result (HasWorked graph.now node
        (S.opened kit.old.store pager.old.file) pager.old.len p staging.old staging.new) }
    ensures next { IfOk result (λ step. IsNextOf p pager.old.len step.next) }
    ensures undone { OnErr result (staging.new ≡ staging.old) }
    ensures refused { IfErr result
        (IsRefusedAt (observed_shelf F.strict F.faults kit.old.shelf kit.new.shelf)
        (counts_of S.faults kit.old.store kit.new.store) graph.now node
        (S.opened kit.old.store pager.old.file) pager.old.len p) }
    ensures stays { StaysAble F.faults F.strict S.faults S.files S.opened
        graph.now node kit.old kit.new pager.old pager.new }
{
    run_position(
        alloc,
        graph,
        node,
        &mut kit.shelf,
        &mut kit.store,
        pager,
        p,
        buffers,
        staging,
    )
}

/// What a worker reads and stages positions with.
#[derive(Drop)]
pub struct Bench {
    pub alloc: Global,
    /// What is held of the item that was read last.
    pub pager: Pager,
    pub buffers: Buffers,
    /// What the claimed positions of the job bring, and those that are worked ahead of a claim.
    pub staging: Staging,
    /// What was staged before each of these.
    pub trail: Trail,
}

impl Bench {
    /// Nothing is read yet.
    pub fn new(alloc: Global) -> Result<Bench, NoMemory> {
        Ok(Bench {
            alloc,
            pager: Pager::new(alloc, 0, 0),
            buffers: Buffers::new(alloc),
            staging: Staging::new(alloc, Time::LEAST),
            trail: Trail::new(alloc)?,
        })
    }

    /// Gives up the bytes of the item that was read last, what is staged and the lists that are used again, and their
    /// memory. Takes none.
    pub fn release(&mut self)
        ensures { self.new ≡ record self.old {
          pager = record self.old.pager { base = 0; bytes = [] };
          buffers = self.new.buffers;
          staging = record { arrivals = []; seen = least_time; logged = None };
        } }
    {
        self.pager.release();
        self.buffers = Buffers::new(self.alloc);
        self.staging = Staging::new(self.alloc, Time::LEAST);
    }

    /// What was staged, of which a worker takes hold. What was seen is a time.
    pub fn take_receipt(&mut self) -> Receipt
        ensures same { result ≡ self.old.staging }
        ensures time { result.seen ≤ℤ greatest_time }
        ensures pager { self.new.pager ≡ self.old.pager }
    {
        let nothing = Staging::new(self.alloc, Time::LEAST);
        let receipt = mem::replace(&mut self.staging, nothing).seal();
        let _ms = receipt.seen.ms();
        receipt
    }

    /// Works the next position of a piece.
    pub fn work_next<F: Shelf, S: Store>(
        &mut self,
        graph: &Graph,
        kit: &mut Kit<F, S>,
        piece: &Piece,
        p: u64,
    ) -> Result<Step, ExecRefusal>
        requires able { CanRead graph.now piece.now.node
            (S.opened kit.old.store self.old.pager.file) self.old.pager }
        requires inside { p < self.old.pager.len }
        ensures worked { IfOk result (HasWorked graph.now piece.now.node
            (S.opened kit.old.store self.old.pager.file) self.old.pager.len p
            self.old.staging self.new.staging) }
        ensures next { IfOk result (λ step. IsNextOf p self.old.pager.len step.next) }
        ensures undone { OnErr result (self.new.staging ≡ self.old.staging) }
        ensures refused { IfErr result
            (IsRefusedAt (observed_shelf F.strict F.faults kit.old.shelf kit.new.shelf)
            (counts_of S.faults kit.old.store kit.new.store) graph.now piece.now.node
            (S.opened kit.old.store self.old.pager.file) self.old.pager.len p) }
        ensures stays { StaysAble F.faults F.strict S.faults S.files S.opened
            graph.now piece.now.node kit.old kit.new self.old.pager self.new.pager }
        ensures trail { self.new.trail ≡ self.old.trail }
    {
        work_position(
            self.alloc,
            graph,
            piece.node,
            kit,
            &mut self.pager,
            p,
            &mut self.buffers,
            &mut self.staging,
        )
    }

    /// Works and claims the next stretch of a piece, which has at most `more` positions after its first one. A refusal
    /// is answered where its position is granted.
    pub fn work_stretch<C: Claims, F: Shelf, S: Store>(
        &mut self,
        graph: &Graph,
        claims: &C,
        pass: &mut C::Pass,
        kit: &mut Kit<F, S>,
        piece: &Piece,
        from: Progress,
        more: u32,
    ) -> Result<Stretch, ExecRefusal>
        requires own { C.is_of claims.now pass.old }
        requires may { CanClaimFrom piece.now (C.known claims.now pass.old) from.next }
        requires able { CanRead graph.now piece.now.node
            (S.opened kit.old.store self.old.pager.file) self.old.pager }
        requires reaches { from.end ≤ self.old.pager.len }
        requires inside { from.next < from.end }
        requires room { 0 < from.room }
        requires fits { (emitted : Emission) → IsTimely emitted
            → All (IsFit graph.now piece.now.node)
            (emission_outputs graph.now piece.now.node emitted) }
        ensures own { C.is_of claims.now pass.new }
        ensures claims { C.stays claims.now pass.old pass.new }
        ensures done { IfOk result (IsStretchDone graph.now
            (S.opened kit.old.store self.old.pager.file) self.old.pager.len piece.now from.next
            (C.known claims.now pass.old) (C.known claims.now pass.new)
            self.old.staging self.new.staging) }
        ensures refused { IfErr result
            (IsStretchRefused (observed_shelf F.strict F.faults kit.old.shelf kit.new.shelf)
            (counts_of S.faults kit.old.store kit.new.store) graph.now
            (S.opened kit.old.store self.old.pager.file) self.old.pager.len piece.now
            (C.known claims.now pass.new)) }
        ensures stays { StaysAble F.faults F.strict S.faults S.files S.opened
            graph.now piece.now.node kit.old kit.new self.old.pager self.new.pager }
    {
        match self.work_ahead(graph, kit, piece, from, more) {
            Ahead::Worked { last, onward } => {
                let end = claims.claim_end(pass, last);
                if last < end {
                    return Ok(Stretch::Claimed(Progress { end, ..onward }));
                }
                self.cut_back(end);
                Ok(Stretch::Cut)
            }
            Ahead::Refused { p, refusal } => {
                let end = claims.claim_end(pass, p);
                if p < end {
                    return Err(refusal);
                }
                // The position is another's, and so is its fault.
                self.cut_back(end);
                Ok(Stretch::Cut)
            }
        }
    }

    // Works the next position and at most `more` after it, until there is room for no other value or the end of the
    // range is reached. A refusal ends it too.
    fn work_ahead<F: Shelf, S: Store>(
        &mut self,
        graph: &Graph,
        kit: &mut Kit<F, S>,
        piece: &Piece,
        from: Progress,
        more: u32,
    ) -> Ahead
        requires able { CanRead graph.now piece.now.node
            (S.opened kit.old.store self.old.pager.file) self.old.pager }
        requires reaches { from.end ≤ self.old.pager.len }
        requires inside { from.next < from.end }
        requires room { 0 < from.room }
        requires fits { (emitted : Emission) → IsTimely emitted
            → All (IsFit graph.now piece.now.node)
            (emission_outputs graph.now piece.now.node emitted) }
        ensures ahead { IsAhead graph.now (S.opened kit.old.store self.old.pager.file)
            self.old.pager.len piece.now from self.old.staging
            self.new.staging self.new.trail result }
        ensures refused { IsAheadRefused
            (observed_shelf F.strict F.faults kit.old.shelf kit.new.shelf)
            (counts_of S.faults kit.old.store kit.new.store) graph.now piece.now.node
            (S.opened kit.old.store self.old.pager.file) self.old.pager.len result }
        ensures stays { StaysAble F.faults F.strict S.faults S.files S.opened
            graph.now piece.now.node kit.old kit.new self.old.pager self.new.pager }
    {
        self.trail.clear();
        let mut at = from;
        let mut left = more.min(MOST);
        'positions: loop {
            let p = at.next;
            match self.work_noted(graph, kit, piece, p) {
                Ok(step) => {
                    at = after(at, step);
                    if !goes_on(left, at) {
                        return Ahead::Worked {
                            last: p,
                            onward: at,
                        };
                    }
                    left -= 1;
                }
                Err(refusal) => return Ahead::Refused { p, refusal },
            }
        }
    }

    // Works a position, and notes what was staged before it.
    fn work_noted<F: Shelf, S: Store>(
        &mut self,
        graph: &Graph,
        kit: &mut Kit<F, S>,
        piece: &Piece,
        p: u64,
    ) -> Result<Step, ExecRefusal>
        requires able { CanRead graph.now piece.now.node
            (S.opened kit.old.store self.old.pager.file) self.old.pager }
        requires inside { p < self.old.pager.len }
        requires few { length self.old.trail ≤ 63 }
        ensures worked { IfOk result (HasWorked graph.now piece.now.node
            (S.opened kit.old.store self.old.pager.file) self.old.pager.len p
            self.old.staging self.new.staging) }
        ensures next { IfOk result (λ step. IsNextOf p self.old.pager.len step.next) }
        ensures undone { OnErr result (self.new.staging ≡ self.old.staging) }
        ensures refused { IfErr result
            (IsRefusedAt (observed_shelf F.strict F.faults kit.old.shelf kit.new.shelf)
            (counts_of S.faults kit.old.store kit.new.store) graph.now piece.now.node
            (S.opened kit.old.store self.old.pager.file) self.old.pager.len p) }
        ensures stays { StaysAble F.faults F.strict S.faults S.files S.opened
            graph.now piece.now.node kit.old kit.new self.old.pager self.new.pager }
        ensures noted { OnOk result (self.new.trail ≡ record {
          p = p;
          count = length self.old.staging.arrivals;
          seen = self.old.staging.seen;
        } ∷ self.old.trail) }
        ensures unnoted { OnErr result (self.new.trail ≡ self.old.trail) }
    {
        let before = Before {
            p,
            count: self.staging.len(),
            seen: self.staging.seen(),
        };
        let step = self.work_next(graph, kit, piece, p)?;
        self.trail.push(before);
        Ok(step)
    }

    // Drops what positions brought that lie at `end` or behind it.
    fn cut_back(&mut self, end: u64)
        ensures staging { self.new.staging
            ≡ cut_back end self.old.staging self.old.trail }
        ensures pager { self.new.pager ≡ self.old.pager }
    {
        while let Some(before) = self.trail.pop_from(end) {
            self.staging.back_to(before.count, before.seen);
        }
    }
}

// A position was worked.
fn after(at: Progress, step: Step) -> Progress
    requires { 0 < at.room }
    ensures next { result.next ≡ step.next }
    ensures end { result.end ≡ at.end }
{
    Progress {
        next: step.next,
        end: at.end,
        room: at.room - u32::from(step.emitted),
    }
}

// Whether the stretch has another position.
fn goes_on(left: u32, at: Progress) -> bool
    ensures left { IsTrue result → 0 < left }
    ensures room { IsTrue result → 0 < at.room }
    ensures inside { IsTrue result → at.next < at.end }
{
    left > 0 && at.room > 0 && at.next < at.end
}
