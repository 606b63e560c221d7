//! Worked cases as data: how the files of cases are read, and answers compared with what is expected.
//!
//! The programs `library_cases`, `plan_cases` and `command_cases` answer cases, and each file of cases is one
//! program's. A case is a line `KIND INPUT => EXPECTED`, or a block of lines that ends with `end`. What the
//! programs read and say is read and said here, so that it is proved once. The layer above may rely on no
//! contract but that of [`Case::name`]: what a case answers is compared, byte by byte. `docs/CASES.md` has the
//! form of each kind. Read `running.rt` first, then `case.rt`.
#![tactic(auto)]

mod case;
mod elements;
mod expanded;
mod nodes;
mod running;
mod settings;
mod stores;
mod values;

pub use case::Case;
pub use elements::{read_element, say_element};
pub use nodes::{read_function, read_node, read_state};
pub use running::{
    Answers, Script, Tally, is_shown_to_pass, print_all, print_passed, read_cases, run_file,
};
pub use settings::{
    read_estimator, read_mark, read_marks, read_strategy, read_trigger, say_mark, say_strategy,
};
pub use stores::shrunk_store;
pub use values::read_value;
