//! The containers that every other crate of the runner is built from: lists and boxes whose value,
//! to a contract, is what they hold and nothing else.
//!
//! A `Vec` or a `Box` of std has its address and its capacity in its value, so that a copy never
//! equals what it copies. [`List`], [`Bytes`] and [`Boxed`] are seen as a list, a list of bytes and
//! the boxed value; a type that is built from them, a recursive one too, is plain data, and
//! [`Duplicate`] copies it to an equal value. A copy of a [`Boxed`] or of a [`Bytes`] takes no memory:
//! short strings lie in themselves, and long ones and boxed values are shared. [`RoomyList`] is for
//! the lists where a push must not fail later: contracts see its kept places too.
//!
//! Want of memory is [`NoMemory`] everywhere above, and a refused call leaves the container as it was.
//! Read `list.rt` first.
#![tactic(auto)]

mod boxed;
mod bytes;
mod duplicate;
mod list;
mod long;
mod memory;
mod roomy;
mod short;

pub use boxed::Boxed;
pub use bytes::Bytes;
pub use duplicate::Duplicate;
pub use list::List;
pub use memory::NoMemory;
pub use roomy::RoomyList;
