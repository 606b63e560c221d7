//! The book of a run: what is pending, worked and committed, and the steps that change it.
//!
//! A [`Book`] is seen as plain data, each of its calls is one step by `specs/Steps.antt`, and every book is
//! sane by `specs/Sane.antt` ([`Book::is_sane`]). [`laws`] says what each step keeps of a sane book, and
//! what holds besides of those that a run reached.
//! Only [`Book::opening`], [`Book::enroll`], [`Book::take`], [`Book::split`], [`Book::commit`],
//! [`Book::outcome`], [`Book::book_data`] and [`Book::of_data`] take memory, and where they are refused the book
//! stays as it was; a refused commit hands its receipt back. Read `book.rt` first.
#![tactic(auto)]

mod book;
mod breaking;
mod commits;
mod committing;
mod data;
mod due;
mod failing;
mod grouped;
mod held;
mod key_job;
mod keyed;
pub mod laws;
mod live;
mod opening;
mod outcome;
mod queue;
mod restoring;
mod results;
mod storable;
mod stored_book;
mod storing;
mod working;

pub use book::Book;
pub use data::BookData;
pub use live::{Batch, Failure, Live, Taken, Unplaced, WaitingPane};
pub use storable::look_at_panes;
