//! Combining before the shuffle: what a Group and a function of its panes make of a key and window, made
//! part by part, with no list of parts (Beam Programming Guide, Combine; the lifting of combiners above a
//! GroupByKey).
//!
//! A [`Combiner`] folds parts into an accumulator; its contract says which list of parts an accumulator
//! stands for, and that the order of that list is no matter. [`SumOf`], [`CountOf`] and [`MaxOf`] stand for
//! the functions SumSeq, CountSeq and MaxSeq of `beam_model`. A [`Partials`] has an accumulator for each key
//! and window, and takes those of another one, after each was settled where it was filled. The layer above may
//! rely on what such a table stands for (`specs/Tables.antt`) and gives (`specs/Folds.antt`). [`shape_refusal`]
//! tells which plans may be combined so. Read `combiner.rt` first, then `partials.rt`.
#![tactic(auto)]

mod combined;
mod combiner;
mod count_of;
mod extracting;
mod lifting;
mod max_of;
mod merging;
mod numbers;
mod partials;
mod refusal;
mod row;
mod rows_index;
mod sum_of;
mod view;
mod view_hash;

pub use combined::Combined;
pub use combiner::Combiner;
pub use count_of::{CountAcc, CountOf};
pub use lifting::{ShapeRefusal, shape_refusal};
pub use max_of::{MaxAcc, MaxOf};
pub use partials::Partials;
pub use refusal::LiftRefusal;
pub use sum_of::{SumAcc, SumOf};
pub use view::View;
