ghost use Rattle.std.specs.Prelude.{◌≡◌};
ghost use Rattle.value_forms.specs.Plans.{is_within, are_options};

use crate::parts::{append_case, append_seq, case_of, ends, field, items_of};
use crate::{FormRefusal, Stored};
use beam_values::{
    Args, Bar, Bytes, Estimator, FnKind, Mode, NoMemory, Node, NodeKind, Options, Plan, SourceKind,
    StateKind, Strategy, Trigger, Value,
};
use std::alloc::Global;

fn is_within(least: u64, greatest: u64, number: u64) -> bool
    ensures { result ≡ is_within least greatest number }
{
    least <= number && number <= greatest
}

/// Whether each option lies within its bounds.
fn are_options(options: &Options) -> bool
    ensures { result ≡ are_options options.now }
{
    is_within(1, 16, u64::from(options.workers))
        && is_within(1, 1_000_000, u64::from(options.bundle))
        && is_within(1, 1_099_511_627_776, options.chunk)
        && is_within(1, 1_000, u64::from(options.attempts))
}

/// Read only where each lies within its bounds.
impl Stored for Options {
    ghost use Rattle.value_forms.specs.Plans.{options_form};

    ghost form = { options_form };

    #[tactic(auto, using(crate::proofs::Written::seq_onto))]
    fn write(&self, out: &mut Bytes) -> Result<(), NoMemory> {
        append_seq(4, out)?;
        self.workers.write(out)?;
        self.bundle.write(out)?;
        self.chunk.write(out)?;
        self.attempts.write(out)
    }

    fn read(alloc: Global, value: &Value) -> Result<Options, FormRefusal> {
        let fields = items_of(value)?;
        let workers = field(alloc, fields, 0)?;
        let bundle = field(alloc, fields, 1)?;
        let chunk = field(alloc, fields, 2)?;
        let attempts = field(alloc, fields, 3)?;
        ends(fields, 4)?;
        let options = Options {
            workers,
            bundle,
            chunk,
            attempts,
        };
        if are_options(&options) {
            Ok(options)
        } else {
            Err(FormRefusal::Shape)
        }
    }
}

impl Stored for Strategy {
    ghost use Rattle.value_forms.specs.Plans.{strategy_form};

    ghost form = { strategy_form };

    #[tactic(auto, using(crate::proofs::Written::case_onto))]
    fn write(&self, out: &mut Bytes) -> Result<(), NoMemory> {
        match self {
            Strategy::Global => append_case(0, 0, out),
            Strategy::Fixed { size } => {
                append_case(1, 1, out)?;
                size.write(out)
            }
            Strategy::Sliding { size, period } => {
                append_case(2, 2, out)?;
                size.write(out)?;
                period.write(out)
            }
            Strategy::Sessions { gap } => {
                append_case(3, 1, out)?;
                gap.write(out)
            }
            Strategy::Kept => append_case(4, 0, out),
        }
    }

    fn read(alloc: Global, value: &Value) -> Result<Strategy, FormRefusal> {
        let (place, fields) = case_of(value)?;
        match place {
            0 => {
                ends(fields, 0)?;
                Ok(Strategy::Global)
            }
            1 => {
                let size = field(alloc, fields, 0)?;
                ends(fields, 1)?;
                Ok(Strategy::Fixed { size })
            }
            2 => {
                let size = field(alloc, fields, 0)?;
                let period = field(alloc, fields, 1)?;
                ends(fields, 2)?;
                Ok(Strategy::Sliding { size, period })
            }
            3 => {
                let gap = field(alloc, fields, 0)?;
                ends(fields, 1)?;
                Ok(Strategy::Sessions { gap })
            }
            4 => {
                ends(fields, 0)?;
                Ok(Strategy::Kept)
            }
            _ => Err(FormRefusal::Shape),
        }
    }
}

impl Stored for Estimator {
    ghost use Rattle.value_forms.specs.Plans.{estimator_form};

    ghost form = { estimator_form };

    #[tactic(auto, using(crate::proofs::Written::case_onto))]
    fn write(&self, out: &mut Bytes) -> Result<(), NoMemory> {
        match self {
            Estimator::None => append_case(0, 0, out),
            Estimator::Monotonic => append_case(1, 0, out),
            Estimator::Lag(by) => {
                append_case(2, 1, out)?;
                by.write(out)
            }
            Estimator::Declared => append_case(3, 0, out),
        }
    }

    fn read(alloc: Global, value: &Value) -> Result<Estimator, FormRefusal> {
        let (place, fields) = case_of(value)?;
        match place {
            0 => {
                ends(fields, 0)?;
                Ok(Estimator::None)
            }
            1 => {
                ends(fields, 0)?;
                Ok(Estimator::Monotonic)
            }
            2 => {
                let by = field(alloc, fields, 0)?;
                ends(fields, 1)?;
                Ok(Estimator::Lag(by))
            }
            3 => {
                ends(fields, 0)?;
                Ok(Estimator::Declared)
            }
            _ => Err(FormRefusal::Shape),
        }
    }
}

impl Stored for Mode {
    ghost use Rattle.value_forms.specs.Plans.{mode_form};

    ghost form = { mode_form };

    #[tactic(auto, using(crate::proofs::Written::case_onto))]
    fn write(&self, out: &mut Bytes) -> Result<(), NoMemory> {
        match self {
            Mode::Discarding => append_case(0, 0, out),
            Mode::Accumulating => append_case(1, 0, out),
        }
    }

    fn read(_alloc: Global, value: &Value) -> Result<Mode, FormRefusal> {
        let (place, fields) = case_of(value)?;
        ends(fields, 0)?;
        match place {
            0 => Ok(Mode::Discarding),
            1 => Ok(Mode::Accumulating),
            _ => Err(FormRefusal::Shape),
        }
    }
}

impl Stored for Bar {
    ghost use Rattle.value_forms.specs.Plans.{bar_form};

    ghost form = { bar_form };

    #[tactic(auto, using(crate::proofs::Written::seq_onto))]
    fn write(&self, out: &mut Bytes) -> Result<(), NoMemory> {
        append_seq(2, out)?;
        self.count.write(out)?;
        self.delay.write(out)
    }

    fn read(alloc: Global, value: &Value) -> Result<Bar, FormRefusal> {
        let fields = items_of(value)?;
        let count = field(alloc, fields, 0)?;
        let delay = field(alloc, fields, 1)?;
        ends(fields, 2)?;
        Ok(Bar { count, delay })
    }
}

impl Stored for Trigger {
    ghost use Rattle.value_forms.specs.Plans.{trigger_form};

    ghost form = { trigger_form };

    #[tactic(auto, using(crate::proofs::Written::seq_onto))]
    fn write(&self, out: &mut Bytes) -> Result<(), NoMemory> {
        append_seq(6, out)?;
        self.early.write(out)?;
        self.late.write(out)?;
        self.lateness.write(out)?;
        self.mode.write(out)?;
        self.early_bars.write(out)?;
        self.late_bars.write(out)
    }

    fn read(alloc: Global, value: &Value) -> Result<Trigger, FormRefusal> {
        let fields = items_of(value)?;
        let early = field(alloc, fields, 0)?;
        let late = field(alloc, fields, 1)?;
        let lateness = field(alloc, fields, 2)?;
        let mode = field(alloc, fields, 3)?;
        let early_bars = field(alloc, fields, 4)?;
        let late_bars = field(alloc, fields, 5)?;
        ends(fields, 6)?;
        Ok(Trigger {
            early,
            late,
            lateness,
            mode,
            early_bars,
            late_bars,
        })
    }
}

impl Stored for Args {
    ghost use Rattle.value_forms.specs.Plans.{args_form};

    ghost form = { args_form };

    #[tactic(auto, using(crate::proofs::Written::case_onto))]
    fn write(&self, out: &mut Bytes) -> Result<(), NoMemory> {
        match self {
            Args::Nothing => append_case(0, 0, out),
            Args::Text(text) => {
                append_case(1, 1, out)?;
                text.write(out)
            }
            Args::Number(number) => {
                append_case(2, 1, out)?;
                number.write(out)
            }
            Args::Two(first, second) => {
                append_case(3, 2, out)?;
                first.write(out)?;
                second.write(out)
            }
        }
    }

    fn read(alloc: Global, value: &Value) -> Result<Args, FormRefusal> {
        let (place, fields) = case_of(value)?;
        match place {
            0 => {
                ends(fields, 0)?;
                Ok(Args::Nothing)
            }
            1 => {
                let text = field(alloc, fields, 0)?;
                ends(fields, 1)?;
                Ok(Args::Text(text))
            }
            2 => {
                let number = field(alloc, fields, 0)?;
                ends(fields, 1)?;
                Ok(Args::Number(number))
            }
            3 => {
                let first = field(alloc, fields, 0)?;
                let second = field(alloc, fields, 1)?;
                ends(fields, 2)?;
                Ok(Args::Two(first, second))
            }
            _ => Err(FormRefusal::Shape),
        }
    }
}

impl Stored for SourceKind {
    ghost use Rattle.value_forms.specs.Plans.{source_form};

    ghost form = { source_form };

    #[tactic(auto, using(crate::proofs::Written::case_onto))]
    fn write(&self, out: &mut Bytes) -> Result<(), NoMemory> {
        match self {
            SourceKind::Lines => append_case(0, 0, out),
            SourceKind::TimedLines => append_case(1, 0, out),
            SourceKind::Count => append_case(2, 0, out),
            SourceKind::Made => append_case(3, 0, out),
        }
    }

    fn read(_alloc: Global, value: &Value) -> Result<SourceKind, FormRefusal> {
        let (place, fields) = case_of(value)?;
        ends(fields, 0)?;
        match place {
            0 => Ok(SourceKind::Lines),
            1 => Ok(SourceKind::TimedLines),
            2 => Ok(SourceKind::Count),
            3 => Ok(SourceKind::Made),
            _ => Err(FormRefusal::Shape),
        }
    }
}

impl Stored for FnKind {
    ghost use Rattle.value_forms.specs.Plans.{fn_form};

    ghost form = { fn_form };

    #[tactic(auto, using(crate::proofs::Written::case_onto))]
    fn write(&self, out: &mut Bytes) -> Result<(), NoMemory> {
        match self {
            FnKind::KeyField => append_case(0, 0, out),
            FnKind::Words => append_case(1, 0, out),
            FnKind::Field => append_case(2, 0, out),
            FnKind::KeepPrefix => append_case(3, 0, out),
            FnKind::FieldInt => append_case(4, 0, out),
            FnKind::Swap => append_case(5, 0, out),
            FnKind::Shift => append_case(6, 0, out),
            FnKind::SumSeq => append_case(7, 0, out),
            FnKind::CountSeq => append_case(8, 0, out),
            FnKind::MaxSeq => append_case(9, 0, out),
            FnKind::Unseq => append_case(10, 0, out),
            FnKind::Values => append_case(11, 0, out),
            FnKind::Tag => append_case(12, 0, out),
            FnKind::JoinList => append_case(13, 0, out),
            FnKind::JoinSingle => append_case(14, 0, out),
            FnKind::JoinLookup => append_case(15, 0, out),
        }
    }

    fn read(_alloc: Global, value: &Value) -> Result<FnKind, FormRefusal> {
        let (place, fields) = case_of(value)?;
        ends(fields, 0)?;
        match place {
            0 => Ok(FnKind::KeyField),
            1 => Ok(FnKind::Words),
            2 => Ok(FnKind::Field),
            3 => Ok(FnKind::KeepPrefix),
            4 => Ok(FnKind::FieldInt),
            5 => Ok(FnKind::Swap),
            6 => Ok(FnKind::Shift),
            7 => Ok(FnKind::SumSeq),
            8 => Ok(FnKind::CountSeq),
            9 => Ok(FnKind::MaxSeq),
            10 => Ok(FnKind::Unseq),
            11 => Ok(FnKind::Values),
            12 => Ok(FnKind::Tag),
            13 => Ok(FnKind::JoinList),
            14 => Ok(FnKind::JoinSingle),
            15 => Ok(FnKind::JoinLookup),
            _ => Err(FormRefusal::Shape),
        }
    }
}

impl Stored for StateKind {
    ghost use Rattle.value_forms.specs.Plans.{state_kind_form};

    ghost form = { state_kind_form };

    #[tactic(auto, using(crate::proofs::Written::case_onto))]
    fn write(&self, out: &mut Bytes) -> Result<(), NoMemory> {
        match self {
            StateKind::Dedupe => append_case(0, 0, out),
            StateKind::RunningSum => append_case(1, 0, out),
            StateKind::BatchUntil => append_case(2, 0, out),
            StateKind::LatestThenEmit => append_case(3, 0, out),
        }
    }

    fn read(_alloc: Global, value: &Value) -> Result<StateKind, FormRefusal> {
        let (place, fields) = case_of(value)?;
        ends(fields, 0)?;
        match place {
            0 => Ok(StateKind::Dedupe),
            1 => Ok(StateKind::RunningSum),
            2 => Ok(StateKind::BatchUntil),
            3 => Ok(StateKind::LatestThenEmit),
            _ => Err(FormRefusal::Shape),
        }
    }
}

impl Stored for NodeKind {
    ghost use Rattle.value_forms.specs.Plans.{kind_form};

    ghost form = { kind_form };

    #[tactic(auto, using(crate::proofs::Written::case_onto))]
    fn write(&self, out: &mut Bytes) -> Result<(), NoMemory> {
        match self {
            NodeKind::Source {
                work,
                args,
                files,
                estimator,
            } => {
                append_case(0, 4, out)?;
                work.write(out)?;
                args.write(out)?;
                files.write(out)?;
                estimator.write(out)
            }
            NodeKind::ParDo { work, args } => {
                append_case(1, 2, out)?;
                work.write(out)?;
                args.write(out)
            }
            NodeKind::Flatten => append_case(2, 0, out),
            NodeKind::WindowInto { strategy } => {
                append_case(3, 1, out)?;
                strategy.write(out)
            }
            NodeKind::Group { trigger } => {
                append_case(4, 1, out)?;
                trigger.write(out)
            }
            NodeKind::Stateful { work, args, log } => {
                append_case(5, 3, out)?;
                work.write(out)?;
                args.write(out)?;
                log.write(out)
            }
            NodeKind::Write { label } => {
                append_case(6, 1, out)?;
                label.write(out)
            }
        }
    }

    fn read(alloc: Global, value: &Value) -> Result<NodeKind, FormRefusal> {
        let (place, fields) = case_of(value)?;
        match place {
            0 => {
                let work = field(alloc, fields, 0)?;
                let args = field(alloc, fields, 1)?;
                let files = field(alloc, fields, 2)?;
                let estimator = field(alloc, fields, 3)?;
                ends(fields, 4)?;
                Ok(NodeKind::Source {
                    work,
                    args,
                    files,
                    estimator,
                })
            }
            1 => {
                let work = field(alloc, fields, 0)?;
                let args = field(alloc, fields, 1)?;
                ends(fields, 2)?;
                Ok(NodeKind::ParDo { work, args })
            }
            2 => {
                ends(fields, 0)?;
                Ok(NodeKind::Flatten)
            }
            3 => {
                let strategy = field(alloc, fields, 0)?;
                ends(fields, 1)?;
                Ok(NodeKind::WindowInto { strategy })
            }
            4 => {
                let trigger = field(alloc, fields, 0)?;
                ends(fields, 1)?;
                Ok(NodeKind::Group { trigger })
            }
            5 => {
                let work = field(alloc, fields, 0)?;
                let args = field(alloc, fields, 1)?;
                let log = field(alloc, fields, 2)?;
                ends(fields, 3)?;
                Ok(NodeKind::Stateful { work, args, log })
            }
            6 => {
                let label = field(alloc, fields, 0)?;
                ends(fields, 1)?;
                Ok(NodeKind::Write { label })
            }
            _ => Err(FormRefusal::Shape),
        }
    }
}

impl Stored for Node {
    ghost use Rattle.value_forms.specs.Plans.{node_form};

    ghost form = { node_form };

    #[tactic(auto, using(crate::proofs::Written::seq_onto))]
    fn write(&self, out: &mut Bytes) -> Result<(), NoMemory> {
        append_seq(2, out)?;
        self.kind.write(out)?;
        self.inputs.write(out)
    }

    fn read(alloc: Global, value: &Value) -> Result<Node, FormRefusal> {
        let fields = items_of(value)?;
        let kind = field(alloc, fields, 0)?;
        let inputs = field(alloc, fields, 1)?;
        ends(fields, 2)?;
        Ok(Node { kind, inputs })
    }
}

impl Stored for Plan {
    ghost use Rattle.value_forms.specs.Plans.{plan_form};

    ghost form = { plan_form };

    #[tactic(auto, using(crate::proofs::Written::seq_onto))]
    fn write(&self, out: &mut Bytes) -> Result<(), NoMemory> {
        append_seq(2, out)?;
        self.version.write(out)?;
        self.nodes.write(out)
    }

    fn read(alloc: Global, value: &Value) -> Result<Plan, FormRefusal> {
        let fields = items_of(value)?;
        let version = field(alloc, fields, 0)?;
        let nodes = field(alloc, fields, 1)?;
        ends(fields, 2)?;
        Ok(Plan { version, nodes })
    }
}
