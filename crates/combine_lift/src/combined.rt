use beam_values::{Span, Value};

/// What was combined of a key and a window.
#[derive(Debug, Drop)]
pub struct Combined {
    pub key: Value,
    pub span: Span,
    /// What the function gives of the parts. Of a sum that leaves 64 bits there is none.
    pub value: Option<Value>,
}
