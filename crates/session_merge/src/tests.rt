//! Windows inserted and taken out, counted by hand.

use crate::{Merged, SessionSet};
use beam_values::Span;
use std::process::Abort;
use std::test::Fail;

// Just these windows, in this order.
fn expect(rt: &impl Abort, spans: &[Span], windows: &[(i64, i64)]) {
    assert_eq!(rt; spans.len(), windows.len(), "{windows:?}");
    for (span, (start, end)) in spans.iter().zip(windows) {
        assert_eq!(rt; span.start(), *start, "{windows:?}");
        assert_eq!(rt; span.end(), *end, "{windows:?}");
    }
}

// The session of a gap of 10 that begins at a time.
fn session_at(time: i64) -> Result<Span, Fail> {
    Ok(Span::new(time, time.saturating_add(10)).ok_or("no window")?)
}

// The answer to the last insertion.
fn insert_all(set: &mut SessionSet, times: &[i64]) -> Result<Merged, Fail> {
    let mut last = None;
    for time in times {
        last = Some(set.insert(session_at(*time)?)?);
    }
    Ok(last.ok_or("no time")?)
}

#[test]
fn windows_with_an_instant_in_common_are_one(rt: HostRuntime) -> Result<(), Fail> {
    let mut touching = SessionSet::new(rt.alloc());
    let last = insert_all(&mut touching, &[0, 10])?;
    expect(&rt, last.absorbed.as_slice(), &[]);
    expect(&rt, touching.spans(), &[(0, 10), (10, 20)]);

    let mut overlapping = SessionSet::new(rt.alloc());
    let last = insert_all(&mut overlapping, &[0, 9])?;
    expect(&rt, last.absorbed.as_slice(), &[(0, 10)]);
    expect(&rt, overlapping.spans(), &[(0, 19)]);

    let mut joined = SessionSet::new(rt.alloc());
    let last = insert_all(&mut joined, &[40, 0, 18, -20, 9])?;
    expect(&rt, last.absorbed.as_slice(), &[(0, 10), (18, 28)]);
    expect(&rt, &[last.span], &[(0, 28)]);
    expect(&rt, joined.spans(), &[(-20, -10), (0, 28), (40, 50)]);
    Ok(())
}

#[test]
fn only_a_listed_window_is_taken_out(rt: HostRuntime) -> Result<(), Fail> {
    let mut set = SessionSet::new(rt.alloc());
    insert_all(&mut set, &[0, 9, 40])?;
    for (start, end, listed) in [
        (0, 10, false),
        (9, 19, false),
        (0, 20, false),
        (40, 50, true),
        (40, 50, false),
    ] {
        let span = Span::new(start, end).ok_or("no window")?;
        assert_eq!(rt; set.remove(span), listed, "{start} to {end}");
    }
    expect(&rt, set.spans(), &[(0, 19)]);
    Ok(())
}
