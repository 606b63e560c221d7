//! Tests of the libraries of plans and functions, which stand here so that those libraries are proved once.
//!
//! Each file tests one of them through what it hands out: checked pipelines, plan documents, shelves of
//! functions, the functions, the sources, the forms of data, and the words of a command line. Expected values
//! are counted by hand.
#![tactic(auto)]

#[cfg(test)]
mod documents;
#[cfg(test)]
mod forms;
#[cfg(test)]
mod functions;
#[cfg(test)]
mod graphs;
#[cfg(test)]
mod shelves;
#[cfg(test)]
mod sources;
#[cfg(test)]
mod words;
