/// Which pane a cell fires, if any.
#[derive(Clone, Copy, Debug, PartialEq, Eq)]
pub enum Fire {
    Nothing,
    Early,
    OnTime,
    Late,
}
