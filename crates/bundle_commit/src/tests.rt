//! Receipts of staged bundles, counted by hand.

use crate::{Logged, Staging};
use beam_values::{Boxed, Element, Estimator, List, PaneTag, Span, Time, Timing, Value};
use keyed_state::KeyState;
use std::test::Fail;
use timer_core::Timers;

fn time(ms: i64) -> Result<Time, Fail> {
    Ok(Time::new(ms).ok_or("no time")?)
}

fn element_at(ms: i64) -> Result<Element, Fail> {
    Ok(Element {
        value: Value::Int(ms),
        time: time(ms)?,
        span: Span::new(0, 10).ok_or("no window")?,
        pane: PaneTag {
            timing: Timing::Unknown,
            index: 0,
        },
    })
}

#[test]
fn a_receipt_has_what_was_added_in_order(rt: HostRuntime) -> Result<(), Fail> {
    let added = [(3, 5), (2, 9), (3, 7)];
    let mut staging = Staging::new(rt.alloc(), time(1)?);
    for (node, ms) in added {
        staging.add(node, element_at(ms)?)?;
        staging.observe(&Estimator::Monotonic, Some(time(ms)?), None);
    }
    let receipt = staging.seal();
    assert_eq!(rt; receipt.arrivals.len(), 3);
    for (arrival, (node, ms)) in receipt.arrivals.as_slice().iter().zip(added) {
        assert_eq!(rt; arrival.node, node);
        assert_eq!(rt; arrival.element.time, time(ms)?);
    }
    assert_eq!(rt; receipt.seen, time(9)?);
    assert!(rt; receipt.logged.is_none());
    Ok(())
}

#[test]
fn a_receipt_has_what_was_logged_last(rt: HostRuntime) -> Result<(), Fail> {
    let mut staging = Staging::new(rt.alloc(), Time::LEAST);
    for number in [4, 7] {
        let mut state = KeyState::new(rt.alloc());
        state.set_number(0, number);
        staging.put_logged(Logged {
            state: Boxed::new(rt.alloc(), state)?,
            timers: Boxed::new(rt.alloc(), Timers::new())?,
            entries: List::new(rt.alloc()),
        });
    }
    let logged = staging.seal().logged.ok_or("nothing logged")?;
    assert_eq!(rt; logged.state.get().number(0), Some(7));
    Ok(())
}
