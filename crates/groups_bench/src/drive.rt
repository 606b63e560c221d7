//! A plan with one Group, and commits of bundles of arrivals at it.

ghost use Rattle.std.specs.Prelude.{◌≡◌, ◌≤ℤ◌, length, All, IfOk, OnOk};
ghost use Rattle.beam_values.specs.Checked.{IsChecked};
ghost use Rattle.beam_values.specs.declared.arrival.Arrival.{Arrival as ArrivalOf};
ghost use Rattle.group_cells.specs.Commits.{HasGap};

use beam_values::{
    Args, Arrival, Boxed, Bytes, Element, Estimator, List, Mark, Mode, NoMemory, Node, NodeKind,
    PaneTag, Plan, SourceKind, Span, StageMarks, Time, Timing, Trigger, Value,
};
use group_cells::Groups;
use std::alloc::Global;
use std::time::{Clock, Instant};
use watermarks::stage_marks;

const BUNDLE: u32 = 64;

const WINDOWS: u32 = 8;

const MINUTE: i64 = 60_000;

/// What a drive counted, and its nanoseconds.
#[derive(Debug, Drop)]
pub struct Counts {
    pub cells: u64,
    pub panes: u64,
    pub placing: u128,
    pub firing: u128,
}

// A source, a Group over it and a Write over that.
fn grouped(alloc: Global) -> Result<Plan, NoMemory>
    ensures checked { IfOk result IsChecked }
    ensures sized { IfOk result (λ plan. length plan.nodes ≡ 3) }
    ensures gapless { IfOk result (λ plan. (arrival : ArrivalOf) → HasGap plan arrival) }
{
    let mut nodes = List::new(alloc);
    nodes.push(Node {
        kind: NodeKind::Source {
            work: SourceKind::Count,
            args: Args::Two(3, 1),
            files: List::new(alloc),
            estimator: Estimator::Monotonic,
        },
        inputs: List::new(alloc),
    })?;
    nodes.push(Node {
        kind: NodeKind::Group {
            trigger: Trigger {
                early: None,
                late: 1,
                lateness: 0,
                mode: Mode::Discarding,
                early_bars: List::new(alloc),
                late_bars: List::new(alloc),
            },
        },
        inputs: List::from_slice(alloc, &[0])?,
    })?;
    nodes.push(Node {
        kind: NodeKind::Write {
            label: Bytes::new(alloc),
        },
        inputs: List::from_slice(alloc, &[1])?,
    })?;
    Ok(Plan { version: 1, nodes })
}

// The arrival of this number: one of the cells, in an order that jumps about.
fn arrival(alloc: Global, number: u32, cells: u32) -> Result<Option<Arrival>, NoMemory> {
    let cell = (u64::from(number) * 7919 % u64::from(cells.max(1))) as u32;
    let start = i64::from(cell % WINDOWS) * MINUTE;
    let (Some(time), Some(span)) = (Time::new(start + 1), Span::new(start, start + MINUTE)) else {
        return Ok(None);
    };
    let key = Bytes::from_slice(alloc, &(cell / WINDOWS).to_be_bytes())?;
    let key = Boxed::new(alloc, Value::Blob(key))?;
    let part = Boxed::new(alloc, Value::Int(i64::from(number)))?;
    Ok(Some(Arrival {
        node: 1,
        element: Element {
            value: Value::Pair(key, part),
            time,
            span,
            pane: PaneTag {
                timing: Timing::Unknown,
                index: 0,
            },
        },
    }))
}

fn bundle(alloc: Global, from: u32, to: u32, cells: u32) -> Result<List<Arrival>, NoMemory> {
    let mut arrivals = List::new(alloc);
    for number in from..to {
        if let Some(arrival) = arrival(alloc, number, cells)? {
            arrivals.push(arrival)?;
        }
    }
    Ok(arrivals)
}

/// What one commit took, and how many panes it fired.
#[derive(Debug, Drop)]
struct Spent {
    nanoseconds: u128,
    panes: u64,
}

// One commit, from the marks that follow where the source holds at one mark to those where it does at another.
fn commit<C: Clock>(
    clock: &C,
    groups: &mut Groups,
    plan: &Plan,
    arrivals: &mut List<Arrival>,
    before: Mark,
    hold: Mark,
    number: u32,
) -> Result<Spent, NoMemory>
    requires plan { groups.old.plan ≡ plan.now }
    requires checked { IsChecked plan.now }
    requires sized { length plan.now.nodes ≡ 3 }
    requires gaps { All (HasGap plan.now) arrivals.old }
    requires upwards { before ≤ℤ hold }
    ensures plan { OnOk result (groups.new.plan ≡ plan.now) }
{
    let mut marks = [StageMarks {
        mark_in: Mark::FINAL,
        mark_out: Mark::FINAL,
    }; 3];
    stage_marks(plan, &[before, Mark::FINAL, Mark::FINAL], &mut marks);
    let Ok(start) = Instant::now(clock) else {
        return Err(NoMemory);
    };
    let holds = [hold, Mark::FINAL, Mark::FINAL];
    let fired = groups.commit(plan, arrivals, &holds, &mut marks, number)?;
    let Ok(spent) = start.elapsed(clock) else {
        return Err(NoMemory);
    };
    Ok(Spent {
        nanoseconds: spent.as_nanos(),
        panes: fired.len() as u64,
    })
}

/// So many arrivals at so many cells, and a commit at which all fire. A clock that fails is answered as
/// want of memory.
pub fn drive<C: Clock>(
    clock: &C,
    alloc: Global,
    cells: u32,
    arrivals: u32,
) -> Result<Counts, NoMemory> {
    let plan = grouped(alloc)?;
    let mut groups = Groups::new(alloc, &plan)?;
    let least = Mark::at(Time::LEAST);
    let mut placing: u128 = 0;
    let mut number = 1;
    for part in 0..arrivals.div_ceil(BUNDLE) {
        let first = part.saturating_mul(BUNDLE);
        let past = arrivals.min(first.saturating_add(BUNDLE));
        let mut bundled = bundle(alloc, first, past, cells)?;
        let spent = commit(
            clock,
            &mut groups,
            &plan,
            &mut bundled,
            least,
            least,
            number,
        )?;
        placing = placing.saturating_add(spent.nanoseconds);
        number = number.saturating_add(1);
    }
    let mut none = List::new(alloc);
    let last = commit(
        clock,
        &mut groups,
        &plan,
        &mut none,
        least,
        Mark::FINAL,
        number,
    )?;
    Ok(Counts {
        cells: groups.cells().len() as u64,
        panes: last.panes,
        placing,
        firing: last.nanoseconds,
    })
}
