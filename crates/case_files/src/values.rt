use crate::case::Case;
use beam_values::{Boxed, List, NoMemory, Value};
use std::alloc::Global;

/// How deep the values of a case may stand in one another.
const MOST_DEPTH: u32 = 300;

/// A value as it is printed: `null`, `-5`, `"text"`, `(key,value)` or `[item,item]`.
pub fn read_value(case: &mut Case<'_>) -> Value {
    value_within(case, MOST_DEPTH)
}

#[cycle(reads)]
fn value_within(case: &mut Case<'_>, depth: u32) -> Value {
    if depth == 0 {
        case.fail("a value stands too deep");
        return Value::Null;
    }
    if case.takes(b'(') {
        let key = value_within(case, depth - 1);
        case.mark(b',');
        let value = value_within(case, depth - 1);
        case.mark(b')');
        return made_pair(key, value, case);
    }
    if case.takes(b'[') {
        return Value::Seq(items_within(case, depth - 1));
    }
    plain_value(case)
}

#[cycle(reads)]
fn items_within(case: &mut Case<'_>, depth: u32) -> List<Value> {
    let mut items = List::new(case.alloc());
    if case.takes(b']') {
        return items;
    }
    for _ in 0..case.left() {
        let item = value_within(case, depth);
        case.keep(&mut items, item);
        if !case.takes(b',') {
            break;
        }
    }
    case.mark(b']');
    items
}

fn made_pair(key: Value, value: Value, case: &mut Case<'_>) -> Value {
    match pair_of(case.alloc(), key, value) {
        Ok(pair) => pair,
        Err(refused) => {
            case.no_memory(refused);
            Value::Null
        }
    }
}

fn pair_of(alloc: Global, key: Value, value: Value) -> Result<Value, NoMemory> {
    let key = Boxed::new(alloc, key)?;
    let value = Boxed::new(alloc, value)?;
    Ok(Value::Pair(key, value))
}

fn plain_value(case: &mut Case<'_>) -> Value {
    if case.shows(b'"') {
        return Value::Blob(case.text());
    }
    match case.word() {
        "null" => Value::Null,
        word => match word.parse::<i64>() {
            Ok(number) => Value::Int(number),
            Err(_) => {
                case.fail("a value isn't one");
                Value::Null
            }
        },
    }
}
