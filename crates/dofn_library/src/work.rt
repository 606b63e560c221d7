//! What the functions do, one type for each.

mod batches;
mod dedupe;
mod latest;
mod pairs;
mod sequences;
mod sides;
mod sums;
mod texts;
mod times;

pub use batches::BatchUntil;
pub use dedupe::Dedupe;
pub use latest::LatestThenEmit;
pub use pairs::{FieldInt, Swap, Values};
pub use sequences::{CountSeq, MaxSeq, SumSeq, Unseq};
pub use sides::{JoinList, JoinLookup, JoinSingle, Tag};
pub use sums::RunningSum;
pub use texts::{Field, KeepPrefix, KeyField, Words};
pub use times::Shift;
