//! Rows of the firing table, of its boundary and of the next marks, counted by hand. Each window ends at a
//! minute.

use crate::{Fire, fire, is_dropped, next_mark};
use beam_values::{Bar, List, Mark, Mode, Time, Trigger};
use std::alloc::Global;
use std::test::Fail;

const END: i64 = 60_000;

fn trigger(alloc: Global, early: Option<u32>, late: u32, lateness: i64) -> Trigger {
    Trigger {
        early,
        late,
        lateness,
        mode: Mode::Discarding,
        early_bars: List::new(alloc),
        late_bars: List::new(alloc),
    }
}

fn bar(count: u32, delay: Option<i64>) -> Bar {
    Bar { count, delay }
}

fn mark(ms: i64) -> Result<Mark, Fail> {
    Ok(Mark::at(Time::new(ms).ok_or("no time")?))
}

#[test]
fn cells_fire_by_the_table(rt: HostRuntime) -> Result<(), Fail> {
    for (early, late, lateness, ms, on_time, unseen, expected) in [
        (None, 1, 0, 59_999, false, 5, Fire::Nothing),
        (None, 1, 0, 60_000, false, 0, Fire::OnTime),
        (Some(2), 1, 0, 0, false, 1, Fire::Nothing),
        (Some(2), 1, 0, 0, false, 2, Fire::Early),
        (Some(2), 1, 0, 60_000, false, 2, Fire::OnTime),
        (Some(1), 3, 100, 60_050, true, 1, Fire::Nothing),
        (None, 3, 100, 60_050, true, 3, Fire::Late),
        (None, 3, 100, 60_100, true, 1, Fire::Late),
        (None, 3, 100, 60_100, true, 0, Fire::Nothing),
    ] {
        let answer = fire(
            &trigger(rt.alloc(), early, late, lateness),
            END,
            mark(ms)?,
            on_time,
            unseen,
        );
        assert_eq!(rt; answer, expected, "late {late} at {ms} with {unseen}");
    }
    Ok(())
}

#[test]
fn elements_are_dropped_once_the_lateness_is_over(rt: HostRuntime) -> Result<(), Fail> {
    for (lateness, ms, dropped) in [
        (0, 59_999, false),
        (0, 60_000, true),
        (20_000, 79_999, false),
        (20_000, 80_000, true),
    ] {
        assert_eq!(rt;
            is_dropped(&trigger(rt.alloc(), None, 1, lateness), END, mark(ms)?),
            dropped,
            "at {ms}"
        );
    }
    let late = trigger(rt.alloc(), None, 1, 1);
    assert!(rt; is_dropped(&late, i64::MAX - 1, Mark::FINAL));
    assert!(rt; !is_dropped(&late, i64::MAX, Mark::FINAL));
    Ok(())
}

#[test]
fn cells_have_a_next_mark_where_they_can_fire(rt: HostRuntime) {
    for (early, late, lateness, on_time, unseen, expected) in [
        (None, 1, 0, false, 0, Some(60_000)),
        (Some(2), 1, 0, false, 1, Some(60_000)),
        (Some(2), 1, 0, false, 2, Some(Time::LEAST_MS)),
        (None, 3, 100, true, 1, Some(60_100)),
        (None, 3, 100, true, 3, Some(Time::LEAST_MS)),
        (None, 1, 0, true, 0, None),
    ] {
        let found = next_mark(
            &trigger(rt.alloc(), early, late, lateness),
            END,
            on_time,
            unseen,
        );
        assert_eq!(rt; found, expected, "late {late} with {unseen}");
    }
    let late = trigger(rt.alloc(), None, 2, 1);
    assert_eq!(rt; next_mark(&late, i64::MAX - 1, true, 1), Some(i64::MAX));
    assert_eq!(rt; next_mark(&late, i64::MAX, true, 1), None);
    assert_eq!(rt; next_mark(&late, i64::MIN, false, 0), Some(Time::LEAST_MS));
}

#[test]
fn early_bars_are_met_before_the_end(rt: HostRuntime) -> Result<(), Fail> {
    let mut stairs = trigger(rt.alloc(), None, 1, 0);
    stairs.early_bars = List::from_slice(rt.alloc(), &[bar(2, Some(-5_000)), bar(9, None)])?;
    for (ms, unseen, expected) in [
        (54_999, 8, Fire::Nothing),
        (55_000, 1, Fire::Nothing),
        (55_000, 2, Fire::Early),
        (0, 9, Fire::Early),
        (60_000, 0, Fire::OnTime),
    ] {
        let answer = fire(&stairs, END, mark(ms)?, false, unseen);
        assert_eq!(rt; answer, expected, "at {ms} with {unseen}");
    }
    let mut any = trigger(rt.alloc(), None, 1, 0);
    any.early_bars = List::from_slice(rt.alloc(), &[bar(0, None)])?;
    assert_eq!(rt; fire(&any, END, mark(0)?, false, 0), Fire::Nothing);
    assert_eq!(rt; fire(&any, END, mark(0)?, false, 1), Fire::Early);
    Ok(())
}

#[test]
fn late_bars_stand_in_place_of_the_late_count(rt: HostRuntime) -> Result<(), Fail> {
    let mut stairs = trigger(rt.alloc(), None, 1, 100);
    stairs.late_bars = List::from_slice(rt.alloc(), &[bar(3, Some(5))])?;
    for (ms, unseen, expected) in [
        (60_004, 3, Fire::Nothing),
        (60_005, 3, Fire::Late),
        (60_099, 1, Fire::Nothing),
        (60_100, 1, Fire::Late),
        (60_100, 0, Fire::Nothing),
    ] {
        let answer = fire(&stairs, END, mark(ms)?, true, unseen);
        assert_eq!(rt; answer, expected, "at {ms} with {unseen}");
    }
    let mut far = trigger(rt.alloc(), None, 1, 0);
    far.late_bars = List::from_slice(rt.alloc(), &[bar(1, Some(31_536_000_000_000))])?;
    assert_eq!(rt; fire(&far, i64::MIN, Mark::FINAL, true, 1), Fire::Late);
    Ok(())
}

#[test]
fn early_bars_have_a_next_mark(rt: HostRuntime) -> Result<(), Fail> {
    let mut stairs = trigger(rt.alloc(), None, 1, 0);
    stairs.early_bars = List::from_slice(rt.alloc(), &[bar(1, Some(-5)), bar(9, None)])?;
    for (unseen, expected) in [(0, 60_000), (1, 59_995), (8, 59_995), (9, Time::LEAST_MS)] {
        assert_eq!(rt;
            next_mark(&stairs, END, false, unseen),
            Some(expected),
            "with {unseen}"
        );
    }
    assert_eq!(rt;
        next_mark(&stairs, Time::LEAST_MS, false, 1),
        Some(Time::LEAST_MS)
    );
    let mut counted = trigger(rt.alloc(), Some(4), 1, 0);
    counted.early_bars = List::from_slice(rt.alloc(), &[bar(2, Some(-7))])?;
    for (unseen, expected) in [(1, 60_000), (3, 59_993), (4, Time::LEAST_MS)] {
        assert_eq!(rt;
            next_mark(&counted, END, false, unseen),
            Some(expected),
            "with {unseen}"
        );
    }
    Ok(())
}

#[test]
fn late_bars_have_a_next_mark(rt: HostRuntime) -> Result<(), Fail> {
    for (delay, unseen, expected) in [
        (Some(5), 0, None),
        (Some(5), 1, Some(60_100)),
        (Some(5), 3, Some(60_005)),
        (Some(500), 3, Some(60_100)),
        (None, 3, Some(Time::LEAST_MS)),
    ] {
        let mut stairs = trigger(rt.alloc(), None, 1, 100);
        stairs.late_bars = List::from_slice(rt.alloc(), &[bar(3, delay)])?;
        assert_eq!(rt;
            next_mark(&stairs, END, true, unseen),
            expected,
            "with {unseen}"
        );
    }
    Ok(())
}
