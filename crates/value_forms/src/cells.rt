use crate::parts::{append_seq, ends, field, items_of};
use crate::{FormRefusal, Stored};
use beam_values::{Bytes, Cell, Dropped, Entry, NoMemory, Pane, Value};
use std::alloc::Global;

impl Stored for Pane {
    ghost use Rattle.value_forms.specs.Cells.{pane_form};

    ghost form = { pane_form };

    #[tactic(auto, using(crate::proofs::Written::seq_onto))]
    fn write(&self, out: &mut Bytes) -> Result<(), NoMemory> {
        append_seq(3, out)?;
        self.node.write(out)?;
        self.element.write(out)?;
        self.commit.write(out)
    }

    fn read(alloc: Global, value: &Value) -> Result<Pane, FormRefusal> {
        let fields = items_of(value)?;
        let node = field(alloc, fields, 0)?;
        let element = field(alloc, fields, 1)?;
        let commit = field(alloc, fields, 2)?;
        ends(fields, 3)?;
        Ok(Pane {
            node,
            element,
            commit,
        })
    }
}

impl Stored for Entry {
    ghost use Rattle.value_forms.specs.Cells.{entry_form};

    ghost form = { entry_form };

    #[tactic(auto, using(crate::proofs::Written::seq_onto))]
    fn write(&self, out: &mut Bytes) -> Result<(), NoMemory> {
        append_seq(3, out)?;
        self.element.write(out)?;
        self.commit.write(out)?;
        self.shown.write(out)
    }

    fn read(alloc: Global, value: &Value) -> Result<Entry, FormRefusal> {
        let fields = items_of(value)?;
        let element = field(alloc, fields, 0)?;
        let commit = field(alloc, fields, 1)?;
        let shown = field(alloc, fields, 2)?;
        ends(fields, 3)?;
        Ok(Entry {
            element,
            commit,
            shown,
        })
    }
}

impl Stored for Cell {
    ghost use Rattle.value_forms.specs.Cells.{cell_form};

    ghost form = { cell_form };

    #[tactic(auto, using(crate::proofs::Written::seq_onto))]
    fn write(&self, out: &mut Bytes) -> Result<(), NoMemory> {
        append_seq(7, out)?;
        self.node.write(out)?;
        self.key.write(out)?;
        self.span.write(out)?;
        self.entries.write(out)?;
        self.next_index.write(out)?;
        self.on_time.write(out)?;
        self.merged_into.write(out)
    }

    fn read(alloc: Global, value: &Value) -> Result<Cell, FormRefusal> {
        let fields = items_of(value)?;
        let node = field(alloc, fields, 0)?;
        let key = field(alloc, fields, 1)?;
        let span = field(alloc, fields, 2)?;
        let entries = field(alloc, fields, 3)?;
        let next_index = field(alloc, fields, 4)?;
        let on_time = field(alloc, fields, 5)?;
        let merged_into = field(alloc, fields, 6)?;
        ends(fields, 7)?;
        Ok(Cell {
            node,
            key,
            span,
            entries,
            next_index,
            on_time,
            merged_into,
        })
    }
}

impl Stored for Dropped {
    ghost use Rattle.value_forms.specs.Cells.{dropped_form};

    ghost form = { dropped_form };

    #[tactic(auto, using(crate::proofs::Written::seq_onto))]
    fn write(&self, out: &mut Bytes) -> Result<(), NoMemory> {
        append_seq(3, out)?;
        self.node.write(out)?;
        self.element.write(out)?;
        self.commit.write(out)
    }

    fn read(alloc: Global, value: &Value) -> Result<Dropped, FormRefusal> {
        let fields = items_of(value)?;
        let node = field(alloc, fields, 0)?;
        let element = field(alloc, fields, 1)?;
        let commit = field(alloc, fields, 2)?;
        ends(fields, 3)?;
        Ok(Dropped {
            node,
            element,
            commit,
        })
    }
}
