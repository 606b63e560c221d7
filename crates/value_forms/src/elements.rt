use crate::parts::{append_case, append_seq, case_of, ends, field, items_of};
use crate::{FormRefusal, Stored};
use beam_values::{Arrival, Bytes, Element, NoMemory, PaneTag, Timing, Value};
use std::alloc::Global;

impl Stored for Timing {
    ghost use Rattle.value_forms.specs.Elements.{timing_form};

    ghost form = { timing_form };

    #[tactic(auto, using(crate::proofs::Written::case_onto))]
    fn write(&self, out: &mut Bytes) -> Result<(), NoMemory> {
        match self {
            Timing::Early => append_case(0, 0, out),
            Timing::OnTime => append_case(1, 0, out),
            Timing::Late => append_case(2, 0, out),
            Timing::Unknown => append_case(3, 0, out),
        }
    }

    fn read(_alloc: Global, value: &Value) -> Result<Timing, FormRefusal> {
        let (place, fields) = case_of(value)?;
        ends(fields, 0)?;
        match place {
            0 => Ok(Timing::Early),
            1 => Ok(Timing::OnTime),
            2 => Ok(Timing::Late),
            3 => Ok(Timing::Unknown),
            _ => Err(FormRefusal::Shape),
        }
    }
}

impl Stored for PaneTag {
    ghost use Rattle.value_forms.specs.Elements.{tag_form};

    ghost form = { tag_form };

    #[tactic(auto, using(crate::proofs::Written::seq_onto))]
    fn write(&self, out: &mut Bytes) -> Result<(), NoMemory> {
        append_seq(2, out)?;
        self.timing.write(out)?;
        self.index.write(out)
    }

    fn read(alloc: Global, value: &Value) -> Result<PaneTag, FormRefusal> {
        let fields = items_of(value)?;
        let timing = field(alloc, fields, 0)?;
        let index = field(alloc, fields, 1)?;
        ends(fields, 2)?;
        Ok(PaneTag { timing, index })
    }
}

impl Stored for Element {
    ghost use Rattle.value_forms.specs.Elements.{element_form};

    ghost form = { element_form };

    #[tactic(auto, using(crate::proofs::Written::seq_onto))]
    fn write(&self, out: &mut Bytes) -> Result<(), NoMemory> {
        append_seq(4, out)?;
        self.value.write(out)?;
        self.time.write(out)?;
        self.span.write(out)?;
        self.pane.write(out)
    }

    fn read(alloc: Global, value: &Value) -> Result<Element, FormRefusal> {
        let fields = items_of(value)?;
        let value = field(alloc, fields, 0)?;
        let time = field(alloc, fields, 1)?;
        let span = field(alloc, fields, 2)?;
        let pane = field(alloc, fields, 3)?;
        ends(fields, 4)?;
        Ok(Element {
            value,
            time,
            span,
            pane,
        })
    }
}

impl Stored for Arrival {
    ghost use Rattle.value_forms.specs.Elements.{arrival_form};

    ghost form = { arrival_form };

    #[tactic(auto, using(crate::proofs::Written::seq_onto))]
    fn write(&self, out: &mut Bytes) -> Result<(), NoMemory> {
        append_seq(2, out)?;
        self.node.write(out)?;
        self.element.write(out)
    }

    fn read(alloc: Global, value: &Value) -> Result<Arrival, FormRefusal> {
        let fields = items_of(value)?;
        let node = field(alloc, fields, 0)?;
        let element = field(alloc, fields, 1)?;
        ends(fields, 2)?;
        Ok(Arrival { node, element })
    }
}
