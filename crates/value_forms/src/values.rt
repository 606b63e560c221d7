use crate::parts::blob_of;
use crate::{FormRefusal, Stored};
use beam_coders::{append_blob, append_value};
use beam_values::{Bytes, NoMemory, Value};
use std::alloc::Global;

impl Stored for Value {
    ghost use Rattle.value_forms.specs.Forms.{value_form};

    ghost form = { value_form };

    fn write(&self, out: &mut Bytes) -> Result<(), NoMemory> {
        append_value(self, out)
    }

    fn read(alloc: Global, value: &Value) -> Result<Value, FormRefusal> {
        Ok(value.copy(alloc)?)
    }
}

impl Stored for Bytes {
    ghost use Rattle.value_forms.specs.Forms.{bytes_form};

    ghost form = { bytes_form };

    #[tactic(auto, using(crate::proofs::Written::blob_written))]
    fn write(&self, out: &mut Bytes) -> Result<(), NoMemory> {
        append_blob(self.as_slice(), out)
    }

    fn read(_alloc: Global, value: &Value) -> Result<Bytes, FormRefusal> {
        Ok(blob_of(value)?.share()?)
    }
}
