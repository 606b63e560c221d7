use crate::{KeyData, SetTimer, Waiting};
use beam_values::{Bytes, NoMemory, Value};
use std::alloc::Global;
use value_forms::{FormRefusal, Stored, append_seq, ends, field, items_of};

impl Stored for Waiting {
    ghost use Rattle.stateful_core.specs.KeyForms.{waiting_form};

    ghost form = { waiting_form };

    #[tactic(auto, using(value_forms::proofs::Written::seq_onto))]
    fn write(&self, out: &mut Bytes) -> Result<(), NoMemory> {
        append_seq(2, out)?;
        self.element.write(out)?;
        self.hold.write(out)
    }

    fn read(alloc: Global, value: &Value) -> Result<Waiting, FormRefusal> {
        let fields = items_of(value)?;
        let element = field(alloc, fields, 0)?;
        let hold = field(alloc, fields, 1)?;
        ends(fields, 2)?;
        Ok(Waiting { element, hold })
    }
}

impl Stored for SetTimer {
    ghost use Rattle.stateful_core.specs.KeyForms.{set_timer_form};

    ghost form = { set_timer_form };

    #[tactic(auto, using(value_forms::proofs::Written::seq_onto))]
    fn write(&self, out: &mut Bytes) -> Result<(), NoMemory> {
        append_seq(2, out)?;
        self.timer.write(out)?;
        self.hold.write(out)
    }

    fn read(alloc: Global, value: &Value) -> Result<SetTimer, FormRefusal> {
        let fields = items_of(value)?;
        let timer = field(alloc, fields, 0)?;
        let hold = field(alloc, fields, 1)?;
        ends(fields, 2)?;
        Ok(SetTimer { timer, hold })
    }
}

impl Stored for KeyData {
    ghost use Rattle.stateful_core.specs.KeyForms.{key_form};

    ghost form = { key_form };

    #[tactic(auto, using(value_forms::proofs::Written::seq_onto))]
    fn write(&self, out: &mut Bytes) -> Result<(), NoMemory> {
        append_seq(8, out)?;
        self.node.write(out)?;
        self.key.write(out)?;
        self.span.write(out)?;
        self.state.write(out)?;
        self.timers.write(out)?;
        self.waiting.write(out)?;
        self.attempts.write(out)?;
        self.log.write(out)
    }

    fn read(alloc: Global, value: &Value) -> Result<KeyData, FormRefusal> {
        let fields = items_of(value)?;
        let node = field(alloc, fields, 0)?;
        let key = field(alloc, fields, 1)?;
        let span = field(alloc, fields, 2)?;
        let state = field(alloc, fields, 3)?;
        let timers = field(alloc, fields, 4)?;
        let waiting = field(alloc, fields, 5)?;
        let attempts = field(alloc, fields, 6)?;
        let log = field(alloc, fields, 7)?;
        ends(fields, 8)?;
        Ok(KeyData {
            node,
            key,
            span,
            state,
            timers,
            waiting,
            attempts,
            log,
        })
    }
}
