//! Many keys, and one of them with many elements: the least hold is compared with one that looks through all.

use beam_values::{
    Args, Arrival, Boxed, Element, List, Mark, NoMemory, Node, NodeKind, PaneTag, Plan, Span,
    StageMarks, StateKind, Time, Timing, Value,
};
use stateful_core::{KeyDone, KeyTurn, Keys};
use std::alloc::Global;
use std::process::Abort;
use std::test::Fail;

const HOT: i64 = 7;

// A node that takes each value once.
fn once(alloc: Global) -> Result<Plan, NoMemory> {
    let mut nodes = List::new(alloc);
    nodes.push(Node {
        kind: NodeKind::Stateful {
            work: StateKind::Dedupe,
            args: Args::Nothing,
            log: false,
        },
        inputs: List::new(alloc),
    })?;
    Ok(Plan { version: 1, nodes })
}

// An element of a key at a time, in the window `[0, 60000)`.
fn arrival(alloc: Global, (key, ms): (i64, i64)) -> Result<Arrival, Fail> {
    let key = Boxed::new(alloc, Value::Int(key))?;
    let part = Boxed::new(alloc, Value::Int(ms))?;
    Ok(Arrival {
        node: 0,
        element: Element {
            value: Value::Pair(key, part),
            time: Time::new(ms).ok_or("no time")?,
            span: Span::new(0, 60_000).ok_or("no window")?,
            pane: PaneTag {
                timing: Timing::Unknown,
                index: 0,
            },
        },
    })
}

// The least time of what waits.
fn least_of(waiting: &[(i64, i64)]) -> i64 {
    let mut least = i64::MAX;
    for (_key, ms) in waiting {
        least = least.min(*ms);
    }
    least
}

// The first elements of a key leave.
fn leave(waiting: &mut Vec<(i64, i64)>, key: i64, count: usize) {
    for _element in 0..count {
        if let Some(at) = waiting.iter().position(|(own, _ms)| *own == key) {
            let _ = waiting.remove(at);
        }
    }
}

fn key_of(turn: &KeyTurn) -> i64 {
    match turn.key {
        Value::Int(key) => key,
        _ => -1,
    }
}

fn done_with(alloc: Global, turn: KeyTurn) -> KeyDone {
    let KeyTurn {
        cell,
        state,
        timers,
        ..
    } = turn;
    KeyDone {
        cell,
        state,
        timers,
        entries: List::new(alloc),
    }
}

// One commit of a job and of what comes.
fn commit(
    rt: &impl Abort,
    alloc: Global,
    keys: &mut Keys,
    plan: &Plan,
    done: Option<KeyDone>,
    comes: &[(i64, i64)],
    waiting: &mut Vec<(i64, i64)>,
) -> Result<(), Fail> {
    let before = [StageMarks {
        mark_in: Mark::at(Time::LEAST),
        mark_out: Mark::at(Time::LEAST),
    }];
    let mut arrivals = List::new(alloc);
    for pair in comes {
        arrivals.push(arrival(alloc, *pair)?)?;
        waiting.push(*pair)?;
    }
    if let Some(done) = &done {
        assert!(rt; (done.cell as usize) < keys.len());
    }
    let least = keys.prepare(plan, done.as_ref(), &arrivals, &before)?;
    for mark in least.as_slice() {
        assert_eq!(rt; mark.ms(), least_of(waiting.as_slice()));
    }
    keys.place(plan, done, &mut arrivals, &before);
    Ok(())
}

#[test]
fn a_hot_key_and_many_others_are_worked(rt: HostRuntime) -> Result<(), Fail> {
    let alloc = rt.alloc();
    let plan = once(alloc)?;
    let marks = [StageMarks {
        mark_in: Mark::at(Time::LEAST),
        mark_out: Mark::at(Time::LEAST),
    }];
    let mut keys = Keys::new(alloc);
    let mut waiting = Vec::new(alloc);
    let mut comes = Vec::new(alloc);
    for key in 0..40u8 {
        comes.push((i64::from(key), 1_040 - i64::from(key)))?;
    }
    for ms in [500, 400, 450, 450, 600, 300, 350, 300, 700, 900, 800] {
        comes.push((HOT, ms))?;
    }
    commit(
        &rt,
        alloc,
        &mut keys,
        &plan,
        None,
        comes.as_slice(),
        &mut waiting,
    )?;
    for job in 0..73u8 {
        let Some(turn) = keys.next_job(&marks, 3)? else {
            break;
        };
        assert!(rt; (turn.cell as usize) < keys.len());
        keys.start_job(turn.cell, 3);
        leave(&mut waiting, key_of(&turn), turn.inputs.get().len());
        let done = done_with(alloc, turn);
        let late = [(HOT, 950 - i64::from(job)), (40 + i64::from(job), 990)];
        let comes: &[(i64, i64)] = if job < 20 { &late } else { &[] };
        commit(
            &rt,
            alloc,
            &mut keys,
            &plan,
            Some(done),
            comes,
            &mut waiting,
        )?;
    }
    assert_eq!(rt; waiting.len(), 0);
    assert_eq!(rt; keys.len(), 60);
    Ok(())
}
