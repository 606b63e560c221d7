ghost use Rattle.std.specs.Prelude.{◌≡◌, ◌++◌, [], ◌+ℤ◌, IfOk, OnOk, length, map, sum_by};
ghost use Rattle.std.specs.Prelude.{unwrap_or};
ghost use Rattle.std.specs.List.{flat_map, fold};
ghost use Rattle.beam_model.specs.Functions.{sum_of};
ghost use Rattle.beam_model.specs.Values.{as_seq};
ghost use Rattle.beam_model.specs.Rendering.{items_written, number_or_zero, summary, summary_line};
ghost use Rattle.beam_text.specs.Parts.{items_in};

use beam_values::{Arrival, Bytes, Element, FileLen, List, NoMemory, Outcome, Value};
use itoa::Buffer;
use std::alloc::Global;

/// The summary of an outcome, a line each: how many positions its source items have, how many elements
/// were written, how many items the sequences of these have, and the sum of the whole numbers among
/// them. A sum that 128 bits don't hold, which more than 2^64 items have, is refused as want of memory.
pub fn summary(alloc: Global, outcome: &Outcome) -> Result<Bytes, NoMemory>
    ensures { IfOk result (λ text. text ≡ summary outcome.now) }
{
    let written = outcome.written.as_slice();
    let mut digits = Buffer::new();
    let mut out = List::new(alloc);
    let lines = position_count(outcome.files.as_slice());
    push_total(b"lines", digits.format(lines).as_bytes(), &mut out)?;
    push_total(b"panes", digits.format(written.len()).as_bytes(), &mut out)?;
    let values = item_count(written);
    push_total(b"values", digits.format(values).as_bytes(), &mut out)?;
    let sum = sum_of_items(written)?;
    push_total(b"sum", digits.format(sum).as_bytes(), &mut out)?;
    Bytes::from_list(alloc, out)
}

fn push_total(name: &[u8], number: &[u8], out: &mut List<u8>) -> Result<(), NoMemory>
    ensures { OnOk result (out.new ≡ out.old ++ summary_line name.now number.now) }
{
    out.extend_from_slice(name)?;
    out.push(b' ')?;
    out.extend_from_slice(number)?;
    out.push(b'\n')
}

fn position_count(files: &[FileLen]) -> u128
    ensures { result ≡ sum_by (λ file. file.len) files.now }
{
    let mut count = 0u128;
    for file in files {
        count += u128::from(file.len);
    }
    count
}

fn item_count(written: &[Arrival]) -> u128
    ensures { result ≡ length (items_in written.now) }
{
    let mut count = 0u128;
    for arrival in written {
        count += items_written(&arrival.element).len() as u128;
    }
    count
}

fn sum_of_items(written: &[Arrival]) -> Result<i128, NoMemory>
    ensures { IfOk result (λ sum. sum ≡ sum_of (map number_or_zero (items_in written.now))) }
{
    let mut sum = 0i128;
    for arrival in written {
        sum = with_items(sum, items_written(&arrival.element))?;
    }
    Ok(sum)
}

fn with_items(sum: i128, items: &[Value]) -> Result<i128, NoMemory>
    ensures { IfOk result
        (λ total. total ≡ fold (λ sum n. sum +ℤ n) sum (map number_or_zero items.now)) }
{
    let mut total = sum;
    for item in items {
        let Some(more) = total.checked_add(i128::from(number_or_zero(item))) else {
            return Err(NoMemory);
        };
        total = more;
    }
    Ok(total)
}

fn number_or_zero(value: &Value) -> i64
    ensures { result ≡ number_or_zero value.now }
{
    match value {
        Value::Int(n) => *n,
        _ => 0,
    }
}

fn items_written(element: &Element) -> &[Value]
    ensures { result.now ≡ items_written element.now }
{
    match &element.value {
        Value::Pair(_, part) => items_of(part.get()),
        _ => &[],
    }
}

fn items_of(value: &Value) -> &[Value]
    ensures { result.now ≡ unwrap_or (as_seq value.now) [] }
{
    match value {
        Value::Seq(items) => items.as_slice(),
        _ => &[],
    }
}
