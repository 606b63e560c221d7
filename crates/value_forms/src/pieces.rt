use crate::parts::{append_case, append_seq, case_of, ends, field, items_of};
use crate::{FormRefusal, Stored};
use beam_values::{Bytes, Cause, Dead, Done, FaultNote, FileLen, NoMemory, Piece, Value};
use std::alloc::Global;

impl Stored for Cause {
    ghost use Rattle.value_forms.specs.Pieces.{cause_form};

    ghost form = { cause_form };

    #[tactic(auto, using(crate::proofs::Written::case_onto))]
    fn write(&self, out: &mut Bytes) -> Result<(), NoMemory> {
        match self {
            Cause::Call => append_case(0, 0, out),
            Cause::Read => append_case(1, 0, out),
        }
    }

    fn read(_alloc: Global, value: &Value) -> Result<Cause, FormRefusal> {
        let (place, fields) = case_of(value)?;
        ends(fields, 0)?;
        match place {
            0 => Ok(Cause::Call),
            1 => Ok(Cause::Read),
            _ => Err(FormRefusal::Shape),
        }
    }
}

impl Stored for FaultNote {
    ghost use Rattle.value_forms.specs.Pieces.{note_form};

    ghost form = { note_form };

    #[tactic(auto, using(crate::proofs::Written::seq_onto))]
    fn write(&self, out: &mut Bytes) -> Result<(), NoMemory> {
        append_seq(5, out)?;
        self.node.write(out)?;
        self.item.write(out)?;
        self.at.write(out)?;
        self.attempt.write(out)?;
        self.cause.write(out)
    }

    fn read(alloc: Global, value: &Value) -> Result<FaultNote, FormRefusal> {
        let fields = items_of(value)?;
        let node = field(alloc, fields, 0)?;
        let item = field(alloc, fields, 1)?;
        let at = field(alloc, fields, 2)?;
        let attempt = field(alloc, fields, 3)?;
        let cause = field(alloc, fields, 4)?;
        ends(fields, 5)?;
        Ok(FaultNote {
            node,
            item,
            at,
            attempt,
            cause,
        })
    }
}

impl Stored for FileLen {
    ghost use Rattle.value_forms.specs.Pieces.{file_form};

    ghost form = { file_form };

    #[tactic(auto, using(crate::proofs::Written::seq_onto))]
    fn write(&self, out: &mut Bytes) -> Result<(), NoMemory> {
        append_seq(3, out)?;
        self.node.write(out)?;
        self.item.write(out)?;
        self.len.write(out)
    }

    fn read(alloc: Global, value: &Value) -> Result<FileLen, FormRefusal> {
        let fields = items_of(value)?;
        let node = field(alloc, fields, 0)?;
        let item = field(alloc, fields, 1)?;
        let len = field(alloc, fields, 2)?;
        ends(fields, 3)?;
        Ok(FileLen { node, item, len })
    }
}

impl Stored for Piece {
    ghost use Rattle.value_forms.specs.Pieces.{piece_form};

    ghost form = { piece_form };

    #[tactic(auto, using(crate::proofs::Written::seq_onto))]
    fn write(&self, out: &mut Bytes) -> Result<(), NoMemory> {
        append_seq(6, out)?;
        self.node.write(out)?;
        self.item.write(out)?;
        self.range.write(out)?;
        self.seen.write(out)?;
        self.attempts.write(out)?;
        self.spent.write(out)
    }

    fn read(alloc: Global, value: &Value) -> Result<Piece, FormRefusal> {
        let fields = items_of(value)?;
        let node = field(alloc, fields, 0)?;
        let item = field(alloc, fields, 1)?;
        let range = field(alloc, fields, 2)?;
        let seen = field(alloc, fields, 3)?;
        let attempts = field(alloc, fields, 4)?;
        let spent = field(alloc, fields, 5)?;
        ends(fields, 6)?;
        Ok(Piece {
            node,
            item,
            range,
            seen,
            attempts,
            spent,
        })
    }
}

impl Stored for Done {
    ghost use Rattle.value_forms.specs.Pieces.{done_form};

    ghost form = { done_form };

    #[tactic(auto, using(crate::proofs::Written::seq_onto))]
    fn write(&self, out: &mut Bytes) -> Result<(), NoMemory> {
        append_seq(3, out)?;
        self.node.write(out)?;
        self.item.write(out)?;
        self.range.write(out)
    }

    fn read(alloc: Global, value: &Value) -> Result<Done, FormRefusal> {
        let fields = items_of(value)?;
        let node = field(alloc, fields, 0)?;
        let item = field(alloc, fields, 1)?;
        let range = field(alloc, fields, 2)?;
        ends(fields, 3)?;
        Ok(Done { node, item, range })
    }
}

impl Stored for Dead {
    ghost use Rattle.value_forms.specs.Pieces.{dead_form};

    ghost form = { dead_form };

    #[tactic(auto, using(crate::proofs::Written::seq_onto))]
    fn write(&self, out: &mut Bytes) -> Result<(), NoMemory> {
        append_seq(4, out)?;
        self.node.write(out)?;
        self.item.write(out)?;
        self.at.write(out)?;
        self.note.write(out)
    }

    fn read(alloc: Global, value: &Value) -> Result<Dead, FormRefusal> {
        let fields = items_of(value)?;
        let node = field(alloc, fields, 0)?;
        let item = field(alloc, fields, 1)?;
        let at = field(alloc, fields, 2)?;
        let note = field(alloc, fields, 3)?;
        ends(fields, 4)?;
        Ok(Dead {
            node,
            item,
            at,
            note,
        })
    }
}
