ghost use Rattle.std.specs.Prelude.{◌≡◌, IfOk};
ghost use Rattle.beam_values.specs.Nodes.{is_write_kind};

use beam_containers::{Bytes, Duplicate, List, NoMemory};
use std::alloc::Global;

/// How the elements of a collection are assigned to windows (Beam Programming Guide, Windowing).
/// Sizes, periods and gaps are in milliseconds.
#[derive(Clone, Copy, Debug, PartialEq, Eq)]
pub enum Strategy {
    Global,
    Fixed { size: i64 },
    Sliding { size: i64, period: i64 },
    Sessions { gap: i64 },
    /// Below a Group of sessions: the elements keep the windows of their panes, and a later Group merges none.
    Kept,
}

/// How a source's watermark follows from what was read (Splittable DoFn, watermark estimators).
#[derive(Clone, Copy, Debug, PartialEq, Eq)]
pub enum Estimator {
    None,
    /// The greatest time so far.
    Monotonic,
    /// The greatest time so far, less this many milliseconds.
    Lag(i64),
    /// The greatest mark that the source declared so far.
    Declared,
}

/// What a pane of a window that has fired before holds (Beam Programming Guide, Window accumulation modes).
#[derive(Clone, Copy, Debug, PartialEq, Eq)]
pub enum Mode {
    /// What no pane has shown yet.
    Discarding,
    /// Everything so far.
    Accumulating,
}

/// A step of a composite trigger: it is met once so many elements are unseen and, where it has a delay, the watermark
/// has come so many milliseconds past the window's end; a delay below 0 is a time before it.
#[derive(Clone, Copy, Debug, PartialEq, Eq)]
pub struct Bar {
    pub count: u32,
    pub delay: Option<i64>,
}

/// When the panes of a window fire (Beam Programming Guide, Triggers).
#[derive(Debug, Drop)]
pub struct Trigger {
    /// Before the watermark passes the window's end: as soon as this many elements are unseen.
    pub early: Option<u32>,
    /// After the on-time pane: as soon as this many are.
    pub late: u32,
    /// How long after its end a window still takes elements, in milliseconds.
    pub lateness: i64,
    pub mode: Mode,
    /// Before the watermark passes the window's end, beside `early`: as soon as something is unseen and one of these is
    /// met. Of the bars of a checked plan each asks for more elements than the one before it, and for less delay.
    pub early_bars: List<Bar>,
    /// After the on-time pane: as soon as one of these is met. Where there are any, `late` has no say. A window that
    /// expires shows what is unseen all the same.
    pub late_bars: List<Bar>,
}

/// The arguments of a function or a source.
#[derive(Debug, Drop)]
pub enum Args {
    Nothing,
    Text(Bytes),
    Number(i64),
    Two(u64, u64),
}

/// What a source reads or makes.
#[derive(Clone, Copy, Debug, PartialEq, Eq)]
pub enum SourceKind {
    /// Each line of its files is a byte string.
    Lines,
    /// Each line of its files is a time and a byte string, or a watermark.
    TimedLines,
    /// `Two(count, step)`: the numbers from 0, each `step` milliseconds after the one before.
    Count,
    /// `Two(count, number)`: made-up timed lines.
    Made,
}

/// The functions of single elements.
#[derive(Clone, Copy, Debug, PartialEq, Eq)]
pub enum FnKind {
    KeyField,
    Words,
    Field,
    KeepPrefix,
    FieldInt,
    Swap,
    Shift,
    SumSeq,
    CountSeq,
    MaxSeq,
    Unseq,
    Values,
    /// `Number(n)`: tags a value of a side input before it is grouped, 1 in the main input and 0 in the view.
    Tag,
    /// Each main value of such a group with all values of the view.
    JoinList,
    /// Each main value with the only value of the view.
    JoinSingle,
    /// Each main value with what the view has under its key.
    JoinLookup,
}

/// The functions with state and timers (Beam Programming Guide, State and Timers).
#[derive(Clone, Copy, Debug, PartialEq, Eq)]
pub enum StateKind {
    Dedupe,
    RunningSum,
    BatchUntil,
    LatestThenEmit,
}

/// What a node of a pipeline does.
#[derive(Debug, Drop)]
pub enum NodeKind {
    Source {
        work: SourceKind,
        args: Args,
        files: List<Bytes>,
        estimator: Estimator,
    },
    ParDo {
        work: FnKind,
        args: Args,
    },
    Flatten,
    WindowInto {
        strategy: Strategy,
    },
    Group {
        trigger: Trigger,
    },
    Stateful {
        work: StateKind,
        args: Args,
        /// Whether its calls are printed.
        log: bool,
    },
    Write {
        label: Bytes,
    },
}

impl NodeKind {
    /// Whether the node is a Write, whose elements are printed.
    pub fn is_write(&self) -> bool
        ensures { result ≡ is_write_kind self.now }
    {
        matches!(self, NodeKind::Write { .. })
    }
}

/// A node and the nodes that it takes its elements from, by their numbers, which are below its own in a
/// checked plan.
#[derive(Debug, Drop)]
pub struct Node {
    pub kind: NodeKind,
    pub inputs: List<u32>,
}

/// A pipeline: nodes, numbered from 0.
#[derive(Debug, Drop)]
pub struct Plan {
    pub version: u32,
    pub nodes: List<Node>,
}

impl Plan {
    /// All nodes, with the same numbers.
    pub fn copy(&self, alloc: Global) -> Result<Plan, NoMemory>
        ensures { IfOk result (λ plan. plan ≡ self.now) }
    {
        Ok(Plan {
            version: self.version,
            nodes: self.nodes.duplicate(alloc)?,
        })
    }
}

impl Duplicate for Plan {
    fn duplicate(&self, alloc: Global) -> Result<Plan, NoMemory> {
        self.copy(alloc)
    }
}

impl Duplicate for Node {
    fn duplicate(&self, alloc: Global) -> Result<Node, NoMemory> {
        Ok(Node {
            kind: self.kind.duplicate(alloc)?,
            inputs: self.inputs.duplicate(alloc)?,
        })
    }
}

impl Duplicate for NodeKind {
    fn duplicate(&self, alloc: Global) -> Result<NodeKind, NoMemory> {
        match self {
            NodeKind::Source {
                work,
                args,
                files,
                estimator,
            } => Ok(NodeKind::Source {
                work: *work,
                args: args.duplicate(alloc)?,
                files: files.duplicate(alloc)?,
                estimator: *estimator,
            }),
            NodeKind::ParDo { work, args } => Ok(NodeKind::ParDo {
                work: *work,
                args: args.duplicate(alloc)?,
            }),
            NodeKind::Flatten => Ok(NodeKind::Flatten),
            NodeKind::WindowInto { strategy } => Ok(NodeKind::WindowInto {
                strategy: *strategy,
            }),
            NodeKind::Group { trigger } => Ok(NodeKind::Group {
                trigger: trigger.duplicate(alloc)?,
            }),
            NodeKind::Stateful { work, args, log } => Ok(NodeKind::Stateful {
                work: *work,
                args: args.duplicate(alloc)?,
                log: *log,
            }),
            NodeKind::Write { label } => Ok(NodeKind::Write {
                label: label.duplicate(alloc)?,
            }),
        }
    }
}

impl Duplicate for Trigger {
    fn duplicate(&self, alloc: Global) -> Result<Trigger, NoMemory> {
        Ok(Trigger {
            early: self.early,
            late: self.late,
            lateness: self.lateness,
            mode: self.mode,
            early_bars: self.early_bars.duplicate(alloc)?,
            late_bars: self.late_bars.duplicate(alloc)?,
        })
    }
}

impl Duplicate for Bar {
    fn duplicate(&self, _alloc: Global) -> Result<Bar, NoMemory> {
        Ok(*self)
    }
}

impl Duplicate for Args {
    fn duplicate(&self, alloc: Global) -> Result<Args, NoMemory> {
        match self {
            Args::Nothing => Ok(Args::Nothing),
            Args::Text(text) => Ok(Args::Text(text.duplicate(alloc)?)),
            Args::Number(n) => Ok(Args::Number(*n)),
            Args::Two(first, second) => Ok(Args::Two(*first, *second)),
        }
    }
}
