//! Tests of the book of a run and of what works it, which stand here so that those libraries are proved once.
//!
//! Each file tests one of them through what it hands out: the cells of keys and those of Groups, the book, the
//! table that workers share, and the replay of a schedule. Expected values are counted by hand.
#![tactic(auto)]

#[cfg(test)]
mod book;
#[cfg(test)]
mod groups;
#[cfg(test)]
mod keys;
#[cfg(test)]
mod replays;
#[cfg(test)]
mod table;
