//! One commit of a Group, counted by hand.

ghost use Rattle.std.specs.Prelude.{◌≡◌, length, IfOk};
ghost use Rattle.beam_values.specs.Checked.{IsChecked};
ghost use Rattle.beam_values.specs.declared.arrival.Arrival.{Arrival as ArrivalOf};
ghost use Rattle.group_cells.specs.Commits.{HasGap};

use beam_values::{
    Args, Arrival, Boxed, Bytes, Element, Estimator, List, Mark, Mode, NoMemory, Node, NodeKind,
    PaneTag, Plan, SourceKind, Span, StageMarks, Time, Timing, Trigger, Value,
};
use group_cells::PlainGroups;
use std::alloc::Global;
use std::test::Fail;
use watermarks::stage_marks;

// A source, a Group over it and a Write over that.
fn grouped(alloc: Global) -> Result<Plan, NoMemory>
    ensures checked { IfOk result IsChecked }
    ensures sized { IfOk result (λ plan. length plan.nodes ≡ 3) }
    ensures gapless { IfOk result (λ plan. (arrival : ArrivalOf) → HasGap plan arrival) }
{
    let mut nodes = List::new(alloc);
    nodes.push(Node {
        kind: NodeKind::Source {
            work: SourceKind::Count,
            args: Args::Two(3, 1),
            files: List::new(alloc),
            estimator: Estimator::Monotonic,
        },
        inputs: List::new(alloc),
    })?;
    nodes.push(Node {
        kind: NodeKind::Group {
            trigger: Trigger {
                early: None,
                late: 1,
                lateness: 0,
                mode: Mode::Discarding,
                early_bars: List::new(alloc),
                late_bars: List::new(alloc),
            },
        },
        inputs: List::from_slice(alloc, &[0])?,
    })?;
    nodes.push(Node {
        kind: NodeKind::Write {
            label: Bytes::new(alloc),
        },
        inputs: List::from_slice(alloc, &[1])?,
    })?;
    Ok(Plan { version: 1, nodes })
}

// A pair of the key 1 in the window `[0, 10)`.
fn arrival(alloc: Global, node: u32, part: i64) -> Result<Arrival, Fail> {
    let key = Boxed::new(alloc, Value::Int(1))?;
    let part = Boxed::new(alloc, Value::Int(part))?;
    Ok(Arrival {
        node,
        element: Element {
            value: Value::Pair(key, part),
            time: Time::new(5).ok_or("no time")?,
            span: Span::new(0, 10).ok_or("no window")?,
            pane: PaneTag {
                timing: Timing::Unknown,
                index: 0,
            },
        },
    })
}

#[test]
fn a_group_takes_elements_and_fires_at_the_end(rt: HostRuntime) -> Result<(), Fail> {
    let plan = grouped(rt.alloc())?;
    let mut groups = PlainGroups::new(rt.alloc(), &plan)?;
    let mut marks = [StageMarks {
        mark_in: Mark::FINAL,
        mark_out: Mark::FINAL,
    }; 3];
    let least = Mark::at(Time::LEAST);
    stage_marks(&plan, &[least, Mark::FINAL, Mark::FINAL], &mut marks);
    let mut arrivals = List::new(rt.alloc());
    for (node, part) in [(1, 3), (2, 9), (1, 2)] {
        arrivals.push(arrival(rt.alloc(), node, part)?)?;
    }
    let fired = groups.commit(&plan, &mut arrivals, &[Mark::FINAL; 3], &mut marks, 1)?;

    assert_eq!(rt; arrivals.len(), 1);
    assert_eq!(rt; fired.len(), 1);
    for pane in fired.as_slice() {
        assert_eq!(rt; pane.element.pane.timing, Timing::OnTime);
        assert_eq!(rt; pane.element.time.ms(), 9);
    }
    assert_eq!(rt; groups.cells().len(), 1);
    for cell in groups.cells() {
        assert_eq!(rt; cell.entries.len(), 2);
        assert_eq!(rt; cell.next_index, 1);
    }
    assert_eq!(rt; marks[1].mark_out.ms(), 9);
    let (cells, dropped) = groups.into_lists();
    assert_eq!(rt; cells.len(), 1);
    assert_eq!(rt; dropped.len(), 0);
    Ok(())
}
