use crate::Seen;
use crate::each_word::EachWord;

/// What views tell of an element: what a function gives of it, or what it brings to the Group.
#[derive(Clone, Copy)]
pub enum Told<'a> {
    Nothing,
    One(Seen<'a>),
    /// The words of a text, each in the same way.
    Words(&'a [u8], EachWord),
}
