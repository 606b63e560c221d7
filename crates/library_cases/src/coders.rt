use beam_coders::{
    CoderRefusal, ReadRefusal, read_element, read_value, write_and_compare, write_and_read,
    write_element, write_value,
};
use beam_values::{Bytes, Element, List, NoMemory, Value, cmp_values};
use case_files::{Case, read_value as value_of, say_element};
use std::alloc::Global;
use std::cmp::Ordering;

/// The value at the front of bytes and its length. Its spelling has to be these bytes again.
pub fn answer_coder(case: &mut Case<'_>) {
    let bytes = case.hex();
    match value_read(case.alloc(), bytes.as_slice()) {
        Ok((value, len)) => {
            case.say_value(&value);
            case.say_number(len as u64);
            expect_front(value_written(case.alloc(), &value), bytes.as_slice(), case);
        }
        Err(refusal) => say_refusal(refusal, case),
    }
}

/// The element at the front of bytes and its length. Its spelling has to be these bytes again.
pub fn answer_element(case: &mut Case<'_>) {
    let bytes = case.hex();
    match element_read(case.alloc(), bytes.as_slice()) {
        Ok((element, len)) => {
            say_element(&element, case);
            case.say_number(len as u64);
            expect_front(
                element_written(case.alloc(), &element),
                bytes.as_slice(),
                case,
            );
        }
        Err(refusal) => say_refusal(refusal, case),
    }
}

fn value_read(alloc: Global, bytes: &[u8]) -> Result<(Value, usize), ReadRefusal> {
    read_value(alloc, bytes)
}

fn element_read(alloc: Global, bytes: &[u8]) -> Result<(Element, usize), ReadRefusal> {
    read_element(alloc, bytes)
}

fn value_written(alloc: Global, value: &Value) -> Result<Bytes, NoMemory> {
    let mut bytes = Bytes::new(alloc);
    write_value(value, &mut bytes)?;
    Ok(bytes)
}

fn element_written(alloc: Global, element: &Element) -> Result<Bytes, NoMemory> {
    let mut bytes = Bytes::new(alloc);
    write_element(element, &mut bytes)?;
    Ok(bytes)
}

fn expect_front(written: Result<Bytes, NoMemory>, bytes: &[u8], case: &mut Case<'_>) {
    match written {
        Ok(written) if bytes.starts_with(written.as_slice()) => {}
        Ok(_) => case.say("but written otherwise"),
        Err(refused) => case.no_memory(refused),
    }
}

fn say_refusal(refusal: ReadRefusal, case: &mut Case<'_>) {
    let ReadRefusal::Bad(refusal) = refusal else {
        return case.no_memory(NoMemory);
    };
    case.say("refusal");
    case.say_number(refusal.number());
    match refusal {
        CoderRefusal::Short => case.say("short"),
        CoderRefusal::Overlong => case.say("overlong"),
        CoderRefusal::Tag(tag) => {
            case.say("tag");
            case.say_number(tag);
        }
        CoderRefusal::Range => case.say("range"),
        CoderRefusal::Deep => case.say("deep"),
    }
}

/// The spelling of a value, which has to be read again, whatever follows it.
pub fn answer_write(case: &mut Case<'_>) {
    let value = value_of(case);
    match value_written(case.alloc(), &value) {
        Ok(bytes) => case.say_hex(bytes.as_slice()),
        Err(refused) => case.no_memory(refused),
    }
    if !is_read_again(case.alloc(), &value) {
        case.say("but read otherwise");
    }
}

fn is_read_again(alloc: Global, value: &Value) -> bool {
    match write_and_read(alloc, value, b"after") {
        Ok(again) => cmp_values(&again, value) == Ordering::Equal,
        Err(_) => false,
    }
}

/// How each value stands to those after it, where that is the same for all of them.
pub fn answer_order(case: &mut Case<'_>) {
    let mut values = List::new(case.alloc());
    for _ in 0..case.left() {
        if case.is_over() {
            break;
        }
        let value = value_of(case);
        case.keep(&mut values, value);
    }
    match common_order(case.alloc(), values.as_slice()) {
        Some(Ordering::Less) => case.say("less"),
        Some(Ordering::Equal) => case.say("equal"),
        Some(Ordering::Greater) => case.say("greater"),
        None => case.say("mixed"),
    }
}

fn common_order(alloc: Global, values: &[Value]) -> Option<Ordering> {
    let mut common = None;
    for (i, a) in values.iter().enumerate() {
        for b in values.split_at(i).1.iter().skip(1) {
            let order = order_of(alloc, a, b)?;
            if common.is_some() && common != Some(order) {
                return None;
            }
            common = Some(order);
        }
    }
    common
}

// The order of two values, where it is that of their spellings and the other way round.
fn order_of(alloc: Global, a: &Value, b: &Value) -> Option<Ordering> {
    let (first, second, order) = write_and_compare(alloc, a, b).ok()?;
    let of_bytes = first.as_slice().cmp(&second.as_slice());
    if order == of_bytes && cmp_values(b, a) == order.reverse() {
        Some(order)
    } else {
        None
    }
}
