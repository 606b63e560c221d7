ghost use Rattle.std.specs.Prelude.{◌≡◌, ◌++◌, OnOk};
ghost use Rattle.beam_values.specs.Spelling.{spelling};
ghost use Rattle.beam_coders.specs.Kept.{Keeps};
ghost use Rattle.value_forms.specs.Answers.{Reads};
ghost use Rattle.value_forms.specs.Forms.{Form};

use crate::FormRefusal;
use beam_values::{Bytes, NoMemory, Value};
use std::alloc::Global;

/// Data that is stored as the bytes of one value.
pub trait Stored: Drop {
    /// The value as which it is written, and what a value is read as.
    ghost form: { Form Self };

    /// Appends the spelling of the value that it is written as, without making that value. Where memory
    /// fails a part of it may stand at the end.
    fn write(&self, out: &mut Bytes) -> Result<(), NoMemory>
        ensures ok { OnOk result (out.new ≡ out.old ++ spelling (form.to self.now)) }
        ensures fits { OnOk result (form.Fits self.now) }
        ensures kept { Keeps out.old out.new };

    /// What a value is read as. `Shape` exactly where it isn't of the form. Long byte strings and the pairs of
    /// values are shared with it.
    fn read(alloc: Global, value: &Value) -> Result<Self, FormRefusal>
        ensures { Reads (λ x. x) result (form.of value.now) };
}
