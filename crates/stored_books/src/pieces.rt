//! Whether ranges fill the source items, and jobs failed as they may.

ghost use Rattle.std.specs.Prelude.{◌≡◌, ◌↔◌, ◌≤◌, ◌<◌, true, length, IfOk, IsTrue};
ghost use Rattle.std.specs.List.{All};
ghost use Rattle.beam_ports.specs.Counts.{greatest_count};
ghost use Rattle.piece_checks.specs.Tiles.{AreItemsAscending};
ghost use Rattle.stored_books.specs.Facts.{AreJobsTried, AreRangesSane};
ghost use Rattle.stored_books.specs.Facts.{faults_of, AreBatchesTried, AreKeysTried, ArePiecesTried};
ghost use Rattle.stored_books.specs.Facts.{IsBatchTried};

use beam_values::NoMemory;
use book_core::{Batch, BookData};
use piece_checks::{
    Faults, are_done_listed, are_faults_enough, are_pieces_listed, are_pieces_tried, are_tiled,
    is_tried,
};
use stateful_core::KeyData;
use std::alloc::Global;

/// Whether pieces, done ranges and dead positions are of listed items, and hold each offset once.
pub fn are_ranges_sane(alloc: Global, stored: &BookData) -> Result<bool, NoMemory>
    requires { AreItemsAscending stored.now.files }
    ensures { IfOk result (λ is. IsTrue is ↔ AreRangesSane stored.now) }
{
    let files = stored.files.as_slice();
    let pending = stored.pending.as_slice();
    let done = stored.done.as_slice();
    if !are_pieces_listed(files, pending) {
        return Ok(false);
    }
    if !are_done_listed(files, done) {
        return Ok(false);
    }
    are_tiled(alloc, files, pending, done, stored.dead.as_slice())
}

/// Whether each job failed as often as it may, and no more often than faults were counted.
pub fn are_jobs_tried(stored: &BookData) -> bool
    ensures { IsTrue result ↔ AreJobsTried stored.now }
{
    let faults = faults_of(stored);
    let limit = stored.options.attempts;
    are_pieces_of(stored)
        && are_batches_tried(faults, limit, stored.returned.as_slice())
        && are_keys_tried(faults, limit, stored.keys.as_slice())
}

fn faults_of(stored: &BookData) -> Faults
    ensures those { result ≡ faults_of stored.now }
    ensures calls { stored.now.calls ≤ greatest_count }
    ensures reads { stored.now.reads ≤ greatest_count }
{
    Faults {
        calls: counted(stored.calls),
        reads: counted(stored.reads),
    }
}

// A count has 64 bits.
fn counted(count: u64) -> u64
    ensures same { result ≡ count }
    ensures least { count ≤ greatest_count }
{
    count
}

fn are_pieces_of(stored: &BookData) -> bool
    ensures { IsTrue result ↔ ArePiecesTried stored.now }
{
    let limit = stored.options.attempts;
    let dead = stored.dead.len();
    let pending = stored.pending.as_slice();
    if stored.commits.len() <= dead {
        return false;
    }
    if !are_pieces_tried(limit, pending) {
        return false;
    }
    are_faults_enough(faults_of(stored), limit, dead, pending)
}

fn are_batches_tried(faults: Faults, limit: u32, returned: &[Batch]) -> bool
    ensures { IsTrue result ↔ AreBatchesTried faults limit returned.now }
{
    returned
        .iter()
        .all(|batch| is_batch_tried(faults, limit, batch))
}

fn is_batch_tried(faults: Faults, limit: u32, batch: &Batch) -> bool
    ensures { IsTrue result ↔ IsBatchTried faults limit batch.now }
{
    !batch.panes.is_empty() && is_tried(faults, limit, batch.attempts)
}

fn are_keys_tried(faults: Faults, limit: u32, keys: &[KeyData]) -> bool
    ensures { IsTrue result ↔ AreKeysTried faults limit keys.now }
{
    keys.iter().all(|key| is_tried(faults, limit, key.attempts))
}
