use beam_values::List;

/// When a pane may fire, as a tree of counts and marks (Beam Programming Guide, Composite triggers).
/// Each fires again and again: the count starts anew after a pane, and a mark that was passed stays
/// passed.
#[derive(Debug, Drop)]
pub enum When {
    /// As soon as this many elements are unseen.
    Count(u32),
    /// Once the watermark is this many milliseconds past the window's end; below 0 it is a time before it.
    MarkAt(i64),
    /// As soon as one of these holds.
    First(List<When>),
    /// Once all of these hold.
    All(List<When>),
}
