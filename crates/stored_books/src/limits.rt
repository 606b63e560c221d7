//! Whether options are within their limits, and lists short enough that their places are numbered.

ghost use Rattle.std.specs.Prelude.{◌≡◌, ◌↔◌, ◌≤◌, ◌<◌, ◌*◌, ◌^◌, IsTrue, length, sum_by};
ghost use Rattle.book_core.specs.Runs.{AreOptions};
ghost use Rattle.stored_books.specs.Facts.{AreListsShort};

use beam_values::Options;
use book_core::BookData;
use stateful_core::KeyData;

/// Whether each option lies within its bounds.
pub fn are_options(options: Options) -> bool
    ensures { IsTrue result ↔ AreOptions options }
{
    is_within(1, 16, u64::from(options.workers))
        && is_within(1, 1_000_000, u64::from(options.bundle))
        && is_within(1, 1_099_511_627_776, options.chunk)
        && is_within(1, 1_000, u64::from(options.attempts))
}

fn is_within(least: u64, most: u64, number: u64) -> bool
    ensures { IsTrue result ↔ ((least ≤ number) × (number ≤ most)) }
{
    least <= number && number <= most
}

/// Whether places in each list are numbered with 32 bits, and so are the elements that wait at key cells.
pub fn are_lists_short(stored: &BookData) -> bool
    ensures { IsTrue result ↔ AreListsShort stored.now }
{
    is_short(stored.commits.len())
        && is_short(stored.panes.len())
        && is_short(stored.dropped.len())
        && is_short(stored.cells.len())
        && is_short(stored.keys.len())
        && are_few_waiting(stored.keys.as_slice())
        && is_short(stored.pending.len())
}

fn is_short(len: usize) -> bool
    ensures { IsTrue result ↔ (len < 4294967295) }
{
    len < 4_294_967_295
}

fn are_few_waiting(keys: &[KeyData]) -> bool
    ensures { IsTrue result ↔ (sum_by (λ key. length key.waiting) keys.now < 4294967295) }
{
    count_waiting(keys) < 4_294_967_295
}

fn count_waiting(keys: &[KeyData]) -> u128
    ensures all { result ≡ sum_by (λ key. length key.waiting) keys.now }
{
    let mut count: u128 = 0;
    for key in keys {
        count += key.waiting.len() as u128;
    }
    count
}
