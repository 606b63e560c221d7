/// Why a plan isn't combined.
#[derive(Clone, Copy, Debug, PartialEq, Eq)]
pub enum LiftRefusal {
    /// It isn't lifted: [`crate::shape_refusal`] tells the rule that it breaks.
    Shape,
    /// A part at the Group isn't one that the function takes.
    Part,
    /// The sum of a key and window leaves 64 bits.
    Sum,
    /// There are more parts than can be counted.
    Many,
}
