use crate::{Batch, BookData, WaitingPane};
use beam_values::{Bytes, NoMemory, Value};
use std::alloc::Global;
use value_forms::{FormRefusal, Stored, append_seq, ends, field, items_of};

impl Stored for WaitingPane {
    ghost use Rattle.book_core.specs.BookForms.{waiting_pane_form};

    ghost form = { waiting_pane_form };

    #[tactic(auto, using(value_forms::proofs::Written::seq_onto))]
    fn write(&self, out: &mut Bytes) -> Result<(), NoMemory> {
        append_seq(2, out)?;
        self.pane.write(out)?;
        self.hold.write(out)
    }

    fn read(alloc: Global, value: &Value) -> Result<WaitingPane, FormRefusal> {
        let fields = items_of(value)?;
        let pane = field(alloc, fields, 0)?;
        let hold = field(alloc, fields, 1)?;
        ends(fields, 2)?;
        Ok(WaitingPane { pane, hold })
    }
}

impl Stored for Batch {
    ghost use Rattle.book_core.specs.BookForms.{batch_form};

    ghost form = { batch_form };

    #[tactic(auto, using(value_forms::proofs::Written::seq_onto))]
    fn write(&self, out: &mut Bytes) -> Result<(), NoMemory> {
        append_seq(3, out)?;
        self.node.write(out)?;
        self.panes.write(out)?;
        self.attempts.write(out)
    }

    fn read(alloc: Global, value: &Value) -> Result<Batch, FormRefusal> {
        let fields = items_of(value)?;
        let node = field(alloc, fields, 0)?;
        let panes = field(alloc, fields, 1)?;
        let attempts = field(alloc, fields, 2)?;
        ends(fields, 3)?;
        Ok(Batch {
            node,
            panes,
            attempts,
        })
    }
}

impl Stored for BookData {
    ghost use Rattle.book_core.specs.BookForms.{book_form};

    ghost form = { book_form };

    #[tactic(auto, using(value_forms::proofs::Written::seq_onto))]
    fn write(&self, out: &mut Bytes) -> Result<(), NoMemory> {
        append_seq(16, out)?;
        self.plan.write(out)?;
        self.files.write(out)?;
        self.options.write(out)?;
        self.pending.write(out)?;
        self.waiting.write(out)?;
        self.returned.write(out)?;
        self.cells.write(out)?;
        self.dropped.write(out)?;
        self.keys.write(out)?;
        self.panes.write(out)?;
        self.done.write(out)?;
        self.dead.write(out)?;
        self.written.write(out)?;
        self.commits.write(out)?;
        self.calls.write(out)?;
        self.reads.write(out)
    }

    fn read(alloc: Global, value: &Value) -> Result<BookData, FormRefusal> {
        let fields = items_of(value)?;
        let plan = field(alloc, fields, 0)?;
        let files = field(alloc, fields, 1)?;
        let options = field(alloc, fields, 2)?;
        let pending = field(alloc, fields, 3)?;
        let waiting = field(alloc, fields, 4)?;
        let returned = field(alloc, fields, 5)?;
        let cells = field(alloc, fields, 6)?;
        let dropped = field(alloc, fields, 7)?;
        let keys = field(alloc, fields, 8)?;
        let panes = field(alloc, fields, 9)?;
        let done = field(alloc, fields, 10)?;
        let dead = field(alloc, fields, 11)?;
        let written = field(alloc, fields, 12)?;
        let commits = field(alloc, fields, 13)?;
        let calls = field(alloc, fields, 14)?;
        let reads = field(alloc, fields, 15)?;
        ends(fields, 16)?;
        Ok(BookData {
            plan,
            files,
            options,
            pending,
            waiting,
            returned,
            cells,
            dropped,
            keys,
            panes,
            done,
            dead,
            written,
            commits,
            calls,
            reads,
        })
    }
}
