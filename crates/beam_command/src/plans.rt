//! The pipelines of `panes` and of `drill`.

ghost use Rattle.std.specs.Prelude.{◌≡◌, ◌≤◌, [], ◌∷◌, length, IfOk};
ghost use Rattle.beam_values.specs.Strategies.{IsLength};
ghost use Rattle.beam_model.specs.Plans.{default_trigger, panes_plan};
ghost use Rattle.beam_command.specs.DrillPlans.{drill_plan};

use beam_values::{
    Args, Bytes, Estimator, FnKind, List, Mode, NoMemory, Node, NodeKind, Plan, SourceKind,
    Strategy, Trigger,
};
use pipeline_graph::{CheckRefusal, Graph};
use std::alloc::Global;

/// The windows of a drill, in milliseconds.
const MINUTE: i64 = 60_000;

/// One on-time pane for each window, and no late elements (Beam Programming Guide, Triggers).
fn default_trigger(alloc: Global) -> Trigger
    ensures { result ≡ default_trigger }
{
    Trigger {
        early: None,
        late: 1,
        lateness: 0,
        mode: Mode::Discarding,
        early_bars: List::new(alloc),
        late_bars: List::new(alloc),
    }
}

// Timed lines of the file, keyed by the field before the next TAB, in fixed windows of `size` milliseconds,
// grouped and written.
fn panes_plan(alloc: Global, file: &[u8], size: i64) -> Result<Plan, NoMemory>
    ensures { IfOk result (λ plan. plan ≡ panes_plan file.now size) }
{
    let mut files = List::new(alloc);
    files.push(Bytes::from_slice(alloc, file)?)?;
    let mut nodes = List::new(alloc);
    nodes.push(Node {
        kind: NodeKind::Source {
            work: SourceKind::TimedLines,
            args: Args::Nothing,
            files,
            estimator: Estimator::None,
        },
        inputs: List::new(alloc),
    })?;
    nodes.push(after(
        alloc,
        0,
        NodeKind::ParDo {
            work: FnKind::KeyField,
            args: Args::Nothing,
        },
    )?)?;
    nodes.push(after(
        alloc,
        1,
        NodeKind::WindowInto {
            strategy: Strategy::Fixed { size },
        },
    )?)?;
    nodes.push(after(
        alloc,
        2,
        NodeKind::Group {
            trigger: default_trigger(alloc),
        },
    )?)?;
    let label = Bytes::from_slice(alloc, b"out")?;
    nodes.push(after(alloc, 3, NodeKind::Write { label })?)?;
    Ok(Plan { version: 1, nodes })
}

// Made lines, keyed by the field before the next TAB, their values as whole numbers, in windows of a minute, grouped and
// written. The times of the lines rise, so the monotonic estimator passes none of them.
fn drill_plan(alloc: Global, count: u64, number: u64) -> Result<Plan, NoMemory>
    ensures { IfOk result (λ plan. plan ≡ drill_plan count number) }
{
    let mut nodes = List::new(alloc);
    nodes.push(Node {
        kind: NodeKind::Source {
            work: SourceKind::Made,
            args: Args::Two(count, number),
            files: List::new(alloc),
            estimator: Estimator::Monotonic,
        },
        inputs: List::new(alloc),
    })?;
    nodes.push(after(
        alloc,
        0,
        NodeKind::ParDo {
            work: FnKind::KeyField,
            args: Args::Nothing,
        },
    )?)?;
    nodes.push(after(
        alloc,
        1,
        NodeKind::ParDo {
            work: FnKind::FieldInt,
            args: Args::Nothing,
        },
    )?)?;
    nodes.push(after(
        alloc,
        2,
        NodeKind::WindowInto {
            strategy: Strategy::Fixed { size: MINUTE },
        },
    )?)?;
    nodes.push(after(
        alloc,
        3,
        NodeKind::Group {
            trigger: default_trigger(alloc),
        },
    )?)?;
    let label = Bytes::from_slice(alloc, b"out")?;
    nodes.push(after(alloc, 4, NodeKind::Write { label })?)?;
    Ok(Plan { version: 1, nodes })
}

// A node with one input.
fn after(alloc: Global, input: u32, kind: NodeKind) -> Result<Node, NoMemory>
    ensures { IfOk result (λ node. node ≡ record { kind = kind; inputs = input ∷ [] }) }
{
    let mut inputs = List::new(alloc);
    inputs.push(input)?;
    Ok(Node { kind, inputs })
}

/// The checked pipeline of `panes FILE SIZE`.
pub fn panes_graph(alloc: Global, file: &[u8], size: i64) -> Result<Graph, NoMemory>
    requires some { 1 ≤ length file.now }
    requires short { length file.now ≤ 4096 }
    requires size { IsLength size }
    ensures { IfOk result (λ graph. graph ≡ panes_plan file.now size) }
{
    match Graph::check(alloc, panes_plan(alloc, file, size)?) {
        Ok(graph) => Ok(graph),
        // It breaks no rule.
        Err(CheckRefusal::Bad(_)) => unreachable!(),
        Err(CheckRefusal::NoMemory) => Err(NoMemory),
    }
}

/// The checked pipeline of `drill COUNT NUMBER`.
pub fn drill_graph(alloc: Global, count: u64, number: u64) -> Result<Graph, NoMemory>
    requires count { count ≤ 1000000 }
    requires number { number ≤ 1000000 }
    ensures { IfOk result (λ graph. graph ≡ drill_plan count number) }
{
    match Graph::check(alloc, drill_plan(alloc, count, number)?) {
        Ok(graph) => Ok(graph),
        // It breaks no rule.
        Err(CheckRefusal::Bad(_)) => unreachable!(),
        Err(CheckRefusal::NoMemory) => Err(NoMemory),
    }
}
