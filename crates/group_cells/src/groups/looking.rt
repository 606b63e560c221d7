ghost use Rattle.std.specs.Prelude.{◌≡◌, ◌<◌, ◌^◌, length, IfSome};
ghost use Rattle.cell_index.specs.Places.{is_cell_of, place_of};

use crate::windows::{is_cell_at_key, is_same_span};
use beam_values::{Boxed, Bytes, Cell, Span, Value};

/// The place of the cell of a node, key and window, where the index can't say it.
pub fn place_among(node: u32, key: &Value, span: Span, cells: &[Cell]) -> Option<u32>
    requires { length cells.now < 2 ^ 32 }
    ensures { result ≡ place_of node key.now span cells.now }
{
    for (at, cell) in cells.iter().enumerate() {
        if is_cell_of(node, key, span, cell) {
            return Some(at as u32);
        }
    }
    None
}

/// An equal key that lies where this one does. A sequence can't be shared.
pub fn shared_key(key: &Value) -> Option<Value>
    ensures { IfSome result (λ own. own ≡ key.now) }
{
    match key {
        Value::Null => Some(Value::Null),
        Value::Int(number) => Some(Value::Int(*number)),
        Value::Blob(bytes) => shared_bytes(bytes),
        Value::Pair(first, second) => shared_pair(first, second),
        Value::Seq(_) => None,
    }
}

fn shared_bytes(bytes: &Bytes) -> Option<Value>
    ensures { IfSome result (λ own. own ≡ Value.Blob bytes.now) }
{
    match bytes.share() {
        Ok(own) => Some(Value::Blob(own)),
        Err(_) => None,
    }
}

fn shared_pair(first: &Boxed<Value>, second: &Boxed<Value>) -> Option<Value>
    ensures { IfSome result (λ own. own ≡ Value.Pair first.now second.now) }
{
    match (first.share(), second.share()) {
        (Ok(key), Ok(value)) => Some(Value::Pair(key, value)),
        _ => None,
    }
}

/// Whether a cell is of a node, key and window.
pub fn is_cell_of(node: u32, key: &Value, span: Span, cell: &Cell) -> bool
    ensures { result ≡ is_cell_of node key.now span cell.now }
{
    is_cell_at_key(node, key, cell) && is_same_span(cell.span, span)
}
