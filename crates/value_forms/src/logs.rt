use crate::parts::{append_case, append_seq, case_of, ends, field, items_of};
use crate::{FormRefusal, Stored};
use beam_values::{Bytes, LogEntry, LogInput, NoMemory, StateCell, Timer, Value};
use std::alloc::Global;

impl Stored for Timer {
    ghost use Rattle.value_forms.specs.Logs.{timer_form};

    ghost form = { timer_form };

    #[tactic(auto, using(crate::proofs::Written::seq_onto))]
    fn write(&self, out: &mut Bytes) -> Result<(), NoMemory> {
        append_seq(2, out)?;
        self.name.write(out)?;
        self.time.write(out)
    }

    fn read(alloc: Global, value: &Value) -> Result<Timer, FormRefusal> {
        let fields = items_of(value)?;
        let name = field(alloc, fields, 0)?;
        let time = field(alloc, fields, 1)?;
        ends(fields, 2)?;
        Ok(Timer { name, time })
    }
}

impl Stored for LogInput {
    ghost use Rattle.value_forms.specs.Logs.{input_form};

    ghost form = { input_form };

    #[tactic(auto, using(crate::proofs::Written::case_onto))]
    fn write(&self, out: &mut Bytes) -> Result<(), NoMemory> {
        match self {
            LogInput::Arrived(element) => {
                append_case(0, 1, out)?;
                element.write(out)
            }
            LogInput::Fired(timer) => {
                append_case(1, 1, out)?;
                timer.write(out)
            }
        }
    }

    fn read(alloc: Global, value: &Value) -> Result<LogInput, FormRefusal> {
        let (place, fields) = case_of(value)?;
        match place {
            0 => {
                let element = field(alloc, fields, 0)?;
                ends(fields, 1)?;
                Ok(LogInput::Arrived(element))
            }
            1 => {
                let timer = field(alloc, fields, 0)?;
                ends(fields, 1)?;
                Ok(LogInput::Fired(timer))
            }
            _ => Err(FormRefusal::Shape),
        }
    }
}

impl Stored for LogEntry {
    ghost use Rattle.value_forms.specs.Logs.{log_form};

    ghost form = { log_form };

    #[tactic(auto, using(crate::proofs::Written::seq_onto))]
    fn write(&self, out: &mut Bytes) -> Result<(), NoMemory> {
        append_seq(3, out)?;
        self.input.write(out)?;
        self.commit.write(out)?;
        self.outputs.write(out)
    }

    fn read(alloc: Global, value: &Value) -> Result<LogEntry, FormRefusal> {
        let fields = items_of(value)?;
        let input = field(alloc, fields, 0)?;
        let commit = field(alloc, fields, 1)?;
        let outputs = field(alloc, fields, 2)?;
        ends(fields, 3)?;
        Ok(LogEntry {
            input,
            commit,
            outputs,
        })
    }
}

impl Stored for StateCell {
    ghost use Rattle.value_forms.specs.Logs.{state_form};

    ghost form = { state_form };

    #[tactic(auto, using(crate::proofs::Written::case_onto))]
    fn write(&self, out: &mut Bytes) -> Result<(), NoMemory> {
        match self {
            StateCell::Unset => append_case(0, 0, out),
            StateCell::Number(number) => {
                append_case(1, 1, out)?;
                number.write(out)
            }
            StateCell::Text(bytes) => {
                append_case(2, 1, out)?;
                bytes.write(out)
            }
            StateCell::Bag(values) => {
                append_case(3, 1, out)?;
                values.write(out)
            }
        }
    }

    fn read(alloc: Global, value: &Value) -> Result<StateCell, FormRefusal> {
        let (place, fields) = case_of(value)?;
        match place {
            0 => {
                ends(fields, 0)?;
                Ok(StateCell::Unset)
            }
            1 => {
                let number = field(alloc, fields, 0)?;
                ends(fields, 1)?;
                Ok(StateCell::Number(number))
            }
            2 => {
                let bytes = field(alloc, fields, 0)?;
                ends(fields, 1)?;
                Ok(StateCell::Text(bytes))
            }
            3 => {
                let values = field(alloc, fields, 0)?;
                ends(fields, 1)?;
                Ok(StateCell::Bag(values))
            }
            _ => Err(FormRefusal::Shape),
        }
    }
}
