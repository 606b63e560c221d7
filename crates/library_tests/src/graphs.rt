//! Plans and the first rules that they break, counted by hand, and what is known of the nodes of one.

use beam_values::{
    Args, Bytes, Estimator, FnKind, GraphRefusal, List, Mode, NoMemory, Node, NodeKind, Plan,
    SourceKind, StateKind, Strategy, Trigger,
};
use pipeline_graph::{CheckRefusal, Graph, refusal_number};
use std::alloc::Global;
use std::process::Abort;
use std::test::Fail;

#[derive(Clone, Copy)]
enum Step {
    Made,
    File,
    KeyField,
    Swap,
    Flatten,
    Minutes,
    Sessions,
    Group,
    Dedupe,
    Write,
}

fn file(alloc: Global) -> Result<NodeKind, NoMemory> {
    let mut files = List::new(alloc);
    files.push(Bytes::from_slice(alloc, b"f")?)?;
    Ok(NodeKind::Source {
        work: SourceKind::TimedLines,
        args: Args::Nothing,
        files,
        estimator: Estimator::None,
    })
}

fn kind_of(alloc: Global, step: Step) -> Result<NodeKind, NoMemory> {
    match step {
        Step::Made => Ok(NodeKind::Source {
            work: SourceKind::Made,
            args: Args::Two(1, 0),
            files: List::new(alloc),
            estimator: Estimator::None,
        }),
        Step::File => file(alloc),
        Step::KeyField => Ok(NodeKind::ParDo {
            work: FnKind::KeyField,
            args: Args::Nothing,
        }),
        Step::Swap => Ok(NodeKind::ParDo {
            work: FnKind::Swap,
            args: Args::Nothing,
        }),
        Step::Flatten => Ok(NodeKind::Flatten),
        Step::Minutes => Ok(NodeKind::WindowInto {
            strategy: Strategy::Fixed { size: 60_000 },
        }),
        Step::Sessions => Ok(NodeKind::WindowInto {
            strategy: Strategy::Sessions { gap: 10 },
        }),
        Step::Group => Ok(NodeKind::Group {
            trigger: Trigger {
                early: None,
                late: 1,
                lateness: 0,
                mode: Mode::Discarding,
                early_bars: List::new(alloc),
                late_bars: List::new(alloc),
            },
        }),
        Step::Dedupe => Ok(NodeKind::Stateful {
            work: StateKind::Dedupe,
            args: Args::Nothing,
            log: false,
        }),
        Step::Write => Ok(NodeKind::Write {
            label: Bytes::from_slice(alloc, b"out")?,
        }),
    }
}

// A plan of these steps, each with its inputs, a digit each.
fn plan_of(alloc: Global, steps: &[(Step, &str)]) -> Result<Plan, NoMemory> {
    let mut nodes = List::new(alloc);
    for (step, digits) in steps {
        nodes.push(Node {
            kind: kind_of(alloc, *step)?,
            inputs: inputs_of(alloc, digits)?,
        })?;
    }
    Ok(Plan { version: 1, nodes })
}

fn inputs_of(alloc: Global, digits: &str) -> Result<List<u32>, NoMemory> {
    let mut inputs = List::new(alloc);
    for digit in digits.bytes() {
        inputs.push(u32::from(digit.wrapping_sub(b'0')))?;
    }
    Ok(inputs)
}

// The first rule that the plan breaks is this one, which has this number.
fn refuses(
    rt: &impl Abort,
    alloc: Global,
    steps: &[(Step, &str)],
    refusal: GraphRefusal,
    number: u8,
) -> Result<(), Fail> {
    match Graph::check(alloc, plan_of(alloc, steps)?) {
        Ok(_) => Err("accepted".into()),
        Err(CheckRefusal::NoMemory) => Err("no memory".into()),
        Err(CheckRefusal::Bad(first)) => {
            assert_eq!(rt; first, refusal);
            assert_eq!(rt; refusal_number(&first), number);
            Ok(())
        }
    }
}

fn checked(alloc: Global, steps: &[(Step, &str)]) -> Result<Graph, Fail> {
    match Graph::check(alloc, plan_of(alloc, steps)?) {
        Ok(graph) => Ok(graph),
        Err(_) => Err("refused".into()),
    }
}

#[test]
fn plans_are_refused_by_the_first_rule_that_they_break(rt: HostRuntime) -> Result<(), Fail> {
    let alloc = rt.alloc();
    let made = (Step::Made, "");
    let write = (Step::Write, "0");
    refuses(&rt, alloc, &[], GraphRefusal::Empty, 1)?;
    refuses(&rt, alloc, &[made; 65], GraphRefusal::TooMany, 2)?;
    let upward = (Step::Write, "1");
    refuses(&rt, alloc, &[upward, made], GraphRefusal::Input(0), 3)?;
    let twice = (Step::Swap, "00");
    refuses(&rt, alloc, &[made, twice, write], GraphRefusal::Arity(1), 4)?;
    refuses(&rt, alloc, &[made], GraphRefusal::NoWrite, 5)?;
    refuses(&rt, alloc, &[made, write, upward], GraphRefusal::Kind(2), 6)?;
    let sessions = (Step::Sessions, "0");
    let dedupe = (Step::Dedupe, "1");
    refuses(
        &rt,
        alloc,
        &[made, sessions, dedupe, write],
        GraphRefusal::Setting(2),
        7,
    )?;
    let fed = (Step::Made, "0");
    refuses(
        &rt,
        alloc,
        &[made, fed, write],
        GraphRefusal::SourceWithInput(1),
        8,
    )
}

#[test]
fn the_plan_of_panes_is_a_pipeline(rt: HostRuntime) -> Result<(), Fail> {
    let steps = [
        (Step::File, ""),
        (Step::KeyField, "0"),
        (Step::Minutes, "1"),
        (Step::Group, "2"),
        (Step::Write, "3"),
    ];
    let graph = checked(rt.alloc(), &steps)?;
    assert_eq!(rt; graph.plan().nodes.len(), 5);
    assert_eq!(rt; graph.into_plan().version, 1);
    Ok(())
}

#[test]
fn nodes_have_their_followers_and_strategies(rt: HostRuntime) -> Result<(), Fail> {
    let alloc = rt.alloc();
    let steps = [
        (Step::Made, ""),
        (Step::Swap, "0"),
        (Step::Flatten, "010"),
        (Step::Sessions, "2"),
        (Step::Group, "3"),
        (Step::Dedupe, "4"),
        (Step::Write, "5"),
        (Step::Write, "0"),
    ];
    let graph = checked(alloc, &steps)?.copy(alloc)?;
    let sessions = Strategy::Sessions { gap: 10 };
    for (node, followers, strategy) in [
        (0, [1, 2, 2, 7].as_slice(), Strategy::Global),
        (1, [2].as_slice(), Strategy::Global),
        (2, [3].as_slice(), Strategy::Global),
        (3, [4].as_slice(), sessions),
        (4, [5].as_slice(), sessions),
        (5, [6].as_slice(), Strategy::Kept),
        (6, [].as_slice(), Strategy::Kept),
        (7, [].as_slice(), Strategy::Global),
    ] {
        if node as usize >= graph.plan().nodes.len() {
            return Err("no such node".into());
        }
        assert_eq!(rt; graph.followers(node), followers, "of {node}");
        assert_eq!(rt; *graph.strategy(node), strategy, "of {node}");
    }
    Ok(())
}
