ghost use Rattle.std.specs.Prelude.{◌≡◌, ◌++◌, OnOk};
ghost use Rattle.std.specs.List.{flat_map, AllByRecursion};
ghost use Rattle.beam_values.specs.Spelling.{spelling};
ghost use Rattle.beam_coders.specs.Kept.{Keeps};
ghost use Rattle.value_forms.specs.Answers.{Reads};
ghost use Rattle.value_forms.specs.Parts.{all_of};

use crate::parts::{append_seq, items_of};
use crate::{FormRefusal, Stored};
use beam_values::{Bytes, List, NoMemory, Value};
use std::alloc::Global;

/// Appends each item.
fn write_all<T: Stored>(items: &[T], out: &mut Bytes) -> Result<(), NoMemory>
    ensures ok { OnOk result
        (out.new ≡ out.old ++ flat_map (λ x. spelling (T.form.to x)) items.now) }
    ensures fits { OnOk result (AllByRecursion T.form.Fits items.now) }
    ensures kept { Keeps out.old out.new }
{
    for item in items {
        item.write(out)?;
    }
    Ok(())
}

/// Reads each item.
fn read_all<T: Stored>(alloc: Global, values: &[Value]) -> Result<List<T>, FormRefusal>
    ensures { Reads (λ x. x) result (all_of T.form.of values.now) }
{
    let mut items = Vec::with_capacity(alloc, values.len())?;
    for value in values {
        items.push(T::read(alloc, value)?)?;
    }
    Ok(List::from_vec(items))
}

impl<T: Stored> Stored for List<T> {
    ghost use Rattle.value_forms.specs.Forms.{list_form};

    ghost form = { list_form T.form };

    #[tactic(auto, using(crate::proofs::Written::list_written, beam_coders::proofs::Keeping::keeps_on))]
    fn write(&self, out: &mut Bytes) -> Result<(), NoMemory> {
        append_seq(self.len() as u64, out)?;
        write_all(self.as_slice(), out)
    }

    fn read(alloc: Global, value: &Value) -> Result<List<T>, FormRefusal> {
        read_all(alloc, items_of(value)?)
    }
}

impl<T: Stored> Stored for Option<T> {
    ghost use Rattle.value_forms.specs.Forms.{option_form};

    ghost form = { option_form T.form };

    #[tactic(auto, using(crate::proofs::Written::seq_onto))]
    fn write(&self, out: &mut Bytes) -> Result<(), NoMemory> {
        match self {
            Some(item) => {
                append_seq(1, out)?;
                item.write(out)
            }
            None => append_seq(0, out),
        }
    }

    fn read(alloc: Global, value: &Value) -> Result<Option<T>, FormRefusal> {
        match items_of(value)? {
            [] => Ok(None),
            [item] => Ok(Some(T::read(alloc, item)?)),
            _ => Err(FormRefusal::Shape),
        }
    }
}
