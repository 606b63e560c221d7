use crate::parts::{append_seq, ends, field, items_of};
use crate::{FormRefusal, Stored};
use beam_values::{Bytes, NoMemory, Range, Span, Value};
use std::alloc::Global;

/// Its start and its end.
impl Stored for Span {
    ghost use Rattle.value_forms.specs.Windows.{span_form};

    ghost form = { span_form };

    #[tactic(auto, using(crate::proofs::Written::seq_onto))]
    fn write(&self, out: &mut Bytes) -> Result<(), NoMemory> {
        append_seq(2, out)?;
        self.start().write(out)?;
        self.end().write(out)
    }

    fn read(alloc: Global, value: &Value) -> Result<Span, FormRefusal> {
        let fields = items_of(value)?;
        let start = field(alloc, fields, 0)?;
        let end = field(alloc, fields, 1)?;
        ends(fields, 2)?;
        Span::new(start, end).ok_or(FormRefusal::Shape)
    }
}

/// Its `from` and its `to`.
impl Stored for Range {
    ghost use Rattle.value_forms.specs.Windows.{range_form};

    ghost form = { range_form };

    #[tactic(auto, using(crate::proofs::Written::seq_onto))]
    fn write(&self, out: &mut Bytes) -> Result<(), NoMemory> {
        append_seq(2, out)?;
        self.from().write(out)?;
        self.to().write(out)
    }

    fn read(alloc: Global, value: &Value) -> Result<Range, FormRefusal> {
        let fields = items_of(value)?;
        let from = field(alloc, fields, 0)?;
        let to = field(alloc, fields, 1)?;
        ends(fields, 2)?;
        Range::new(from, to).ok_or(FormRefusal::Shape)
    }
}
