ghost use Rattle.std.specs.Prelude.{◌≡◌, ◌++◌, OnOk};
ghost use Rattle.std.specs.Int.{w64};
ghost use Rattle.std.specs.Int.RustNames.{FitsSigned};
ghost use Rattle.beam_values.specs.Spelling.{spelling};
ghost use Rattle.beam_coders.specs.Kept.{Keeps};
ghost use Rattle.value_forms.specs.Answers.{Reads};
ghost use Rattle.value_forms.specs.Parts.{int_at, blob_at, items_at, case_at, field_at, ends_at};
ghost use Rattle.value_forms.specs.Writing.{seq_head, case_head};

use crate::{FormRefusal, Stored};
use beam_coders::{append_count, append_int};
use beam_values::{Bytes, NoMemory, Value};
use std::alloc::Global;

/// The number of an `Int`.
#[tactic(auto, unfolding(crate::specs::Parts::int_at))]
pub fn int_of(value: &Value) -> Result<i64, FormRefusal>
    ensures { Reads (λ n. n) result (int_at value.now) }
{
    match value {
        Value::Int(number) => Ok(*number),
        _ => Err(FormRefusal::Shape),
    }
}

/// The bytes of a `Blob`.
#[tactic(auto, unfolding(crate::specs::Parts::blob_at))]
pub fn blob_of(value: &Value) -> Result<&Bytes, FormRefusal>
    ensures { Reads (λ bytes. bytes.now) result (blob_at value.now) }
{
    match value {
        Value::Blob(bytes) => Ok(bytes),
        _ => Err(FormRefusal::Shape),
    }
}

/// The items of a `Seq`: the fields of a struct, or the items of a list.
#[tactic(auto, unfolding(crate::specs::Parts::items_at))]
pub fn items_of(value: &Value) -> Result<&[Value], FormRefusal>
    ensures { Reads (λ items. items.now) result (items_at value.now) }
{
    match value {
        Value::Seq(items) => Ok(items.as_slice()),
        _ => Err(FormRefusal::Shape),
    }
}

/// The place of a variant, counted from 0, and its fields.
#[tactic(auto, unfolding(crate::specs::Parts::case_at, crate::specs::Parts::pair_at))]
pub fn case_of(value: &Value) -> Result<(u64, &[Value]), FormRefusal>
    ensures { Reads (λ c. (c.0, c.1.now)) result (case_at value.now) }
{
    let Value::Pair(place, fields) = value else {
        return Err(FormRefusal::Shape);
    };
    let place = int_of(place.get())?;
    if place < 0 {
        return Err(FormRefusal::Shape);
    }
    let fields = items_of(fields.get())?;
    Ok((place as u64, fields))
}

/// The field at a place, counted from 0.
#[tactic(auto, unfolding(crate::specs::Parts::field_at))]
pub fn field<T: Stored>(alloc: Global, fields: &[Value], place: usize) -> Result<T, FormRefusal>
    ensures { Reads (λ x. x) result (field_at T.form.of fields.now place) }
{
    match fields.get(place) {
        Some(value) => T::read(alloc, value),
        None => Err(FormRefusal::Shape),
    }
}

/// Refused where there are more fields than so many, or fewer.
#[tactic(auto, unfolding(crate::specs::Parts::ends_at))]
pub fn ends(fields: &[Value], count: usize) -> Result<(), FormRefusal>
    ensures { Reads (λ x. x) result (ends_at fields.now count) }
{
    if fields.len() == count {
        Ok(())
    } else {
        Err(FormRefusal::Shape)
    }
}

/// Appends an `Int`.
#[tactic(auto, using(crate::proofs::Written::int_written))]
pub fn append_number(number: i64, out: &mut Bytes) -> Result<(), NoMemory>
    ensures ok { OnOk result (out.new ≡ out.old ++ spelling (Value.Int number)) }
    ensures words { FitsSigned w64 number }
    ensures kept { Keeps out.old out.new }
{
    append_int(number, out)
}

/// Appends what stands before the items of a list or the fields of a struct.
#[tactic(auto, unfolding(crate::specs::Writing::seq_head))]
pub fn append_seq(count: u64, out: &mut Bytes) -> Result<(), NoMemory>
    ensures ok { OnOk result (out.new ≡ out.old ++ seq_head count) }
    ensures kept { Keeps out.old out.new }
{
    append_count(count, out)
}

/// Appends what stands before the fields of a variant, whose place is counted from 0.
#[tactic(auto, unfolding(crate::specs::Writing::seq_head, crate::specs::Writing::case_head))]
pub fn append_case(place: u8, count: u64, out: &mut Bytes) -> Result<(), NoMemory>
    ensures ok { OnOk result (out.new ≡ out.old ++ case_head place count) }
    ensures kept { Keeps out.old out.new }
{
    out.push(3)?;
    append_int(i64::from(place), out)?;
    append_count(count, out)
}
