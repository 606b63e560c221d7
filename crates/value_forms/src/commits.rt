use crate::parts::{append_seq, ends, field, items_of};
use crate::{FormRefusal, Stored};
use beam_values::{Boxed, Bytes, CommitMarks, List, NoMemory, StageMarks, Value};
use std::alloc::Global;

impl Stored for StageMarks {
    ghost use Rattle.value_forms.specs.Commits.{stage_form};

    ghost form = { stage_form };

    #[tactic(auto, using(crate::proofs::Written::seq_onto))]
    fn write(&self, out: &mut Bytes) -> Result<(), NoMemory> {
        append_seq(2, out)?;
        self.mark_in.write(out)?;
        self.mark_out.write(out)
    }

    fn read(alloc: Global, value: &Value) -> Result<StageMarks, FormRefusal> {
        let fields = items_of(value)?;
        let mark_in = field(alloc, fields, 0)?;
        let mark_out = field(alloc, fields, 1)?;
        ends(fields, 2)?;
        Ok(StageMarks { mark_in, mark_out })
    }
}

impl Stored for CommitMarks {
    ghost use Rattle.value_forms.specs.Commits.{commit_form};

    ghost form = { commit_form };

    #[tactic(auto, using(crate::proofs::Written::seq_onto))]
    fn write(&self, out: &mut Bytes) -> Result<(), NoMemory> {
        append_seq(1, out)?;

        self.marks.get().write(out)
    }

    fn read(alloc: Global, value: &Value) -> Result<CommitMarks, FormRefusal> {
        let fields = items_of(value)?;
        let marks: List<StageMarks> = field(alloc, fields, 0)?;
        ends(fields, 1)?;
        let marks = Boxed::new(alloc, marks)?;
        Ok(CommitMarks { marks })
    }
}
