//! The functions of pipelines as objects: what each gives of an element (Beam Programming Guide, ParDo),
//! and with state what it leaves and gives (State and Timers).
//!
//! Every function here is strict: it gives exactly what `emits` and `steps` of `beam_model` say, fails on
//! poison alone and before it asks for any memory, and counts one fault for each such call and none
//! else. The layer above may rely on this, which [`Strict`] says once for all of them by the clauses of
//! its calls. A call borrows its input: what it gives shares the parts of pairs, and a key that is made
//! of bytes is shared with the equal ones made lately (`shared_keys.rt`). [`Scripted`] alone may fail
//! otherwise: it stands round any function of elements, and fails at the calls that it was given. Read
//! `strict.rt`, `element_work.rt` and `state_work.rt` first; `work/` has what each function does.
#![tactic(auto)]

mod arguments;
mod batches;
mod element_work;
mod kept;
mod numbers;
mod scripted;
mod shapes;
mod shared_keys;
mod sides;
mod state_work;
mod strict;
mod texts;
mod views;
pub mod work;

pub use element_work::ElementWork;
pub use scripted::Scripted;
pub use shared_keys::SharedKeys;
pub use state_work::StateWork;
pub use strict::Strict;
pub use texts::{first_word, int_of};

/// [`work::KeyField`] as an object.
pub type KeyField = Strict<work::KeyField>;

/// [`work::Words`] as an object.
pub type Words = Strict<work::Words>;

/// [`work::Field`] as an object.
pub type Field = Strict<work::Field>;

/// [`work::KeepPrefix`] as an object.
pub type KeepPrefix = Strict<work::KeepPrefix>;

/// [`work::FieldInt`] as an object.
pub type FieldInt = Strict<work::FieldInt>;

/// [`work::Swap`] as an object.
pub type Swap = Strict<work::Swap>;

/// [`work::Shift`] as an object.
pub type Shift = Strict<work::Shift>;

/// [`work::SumSeq`] as an object.
pub type SumSeq = Strict<work::SumSeq>;

/// [`work::CountSeq`] as an object.
pub type CountSeq = Strict<work::CountSeq>;

/// [`work::MaxSeq`] as an object.
pub type MaxSeq = Strict<work::MaxSeq>;

/// [`work::Unseq`] as an object.
pub type Unseq = Strict<work::Unseq>;

/// [`work::Values`] as an object.
pub type Values = Strict<work::Values>;

/// [`work::Tag`] as an object.
pub type Tag = Strict<work::Tag>;

/// [`work::JoinList`] as an object.
pub type JoinList = Strict<work::JoinList>;

/// [`work::JoinSingle`] as an object.
pub type JoinSingle = Strict<work::JoinSingle>;

/// [`work::JoinLookup`] as an object.
pub type JoinLookup = Strict<work::JoinLookup>;

/// [`work::Dedupe`] as an object.
pub type Dedupe = Strict<work::Dedupe>;

/// [`work::RunningSum`] as an object.
pub type RunningSum = Strict<work::RunningSum>;

/// [`work::BatchUntil`] as an object.
pub type BatchUntil = Strict<work::BatchUntil>;

/// [`work::LatestThenEmit`] as an object.
pub type LatestThenEmit = Strict<work::LatestThenEmit>;

/// Adds to a list of boxes one of each function of elements, a few in each closure, so that each is proved soon. It is
/// a macro, since a function may not hand out such boxes. Where it stands, `NoMemory` is in scope.
#[macro_export]
macro_rules! add_functions {
    ($alloc:expr, $boxes:ident) => {
        $crate::add_functions!($alloc, $boxes;
            [KeyField, Words, Field, KeepPrefix]
            [FieldInt, Swap, Shift, SumSeq]
            [CountSeq, MaxSeq, Unseq, Values]
            [Tag, JoinList, JoinSingle, JoinLookup])
    };
    ($alloc:expr, $boxes:ident; $([$($object:ident),*])*) => {{
        let mut added: Result<(), NoMemory> = Ok(());
        $(
            if added.is_ok() {
                let mut add = || -> Result<(), NoMemory> {
                    $($boxes.push(Box::new($alloc, $crate::$object::new($alloc))?)?;)*
                    Ok(())
                };
                added = add();
            }
        )*
        added
    }};
}
