//! Lines and texts of a schedule, by hand.

use crate::{
    Claimed, Line, Told, Took, next_line, push_position, push_range, push_told, read_line,
};
use beam_values::{List, Range};
use std::test::Fail;

#[test]
fn schedule_of_two_lines(rt: HostRuntime) -> Result<(), Fail> {
    let (first, rest) = next_line(b"split 0 1 2\ndrain").ok_or("no line")?;
    assert_eq!(rt;
        read_line(first),
        Some(Line::Split {
            slot: 0,
            num: 1,
            den: 2
        })
    );
    let (second, rest) = next_line(rest).ok_or("no second line")?;
    assert_eq!(rt; read_line(second), Some(Line::Drain));
    assert!(rt; next_line(rest).is_none());
    Ok(())
}

#[test]
fn printed_lines(rt: HostRuntime) -> Result<(), Fail> {
    let mut out = List::new(rt.alloc());
    let range = Range::new(0, 27).ok_or("no range")?;
    let what = Took::Range {
        node: 0,
        item: 0,
        range,
    };
    push_told(&Told::Taken { slot: 0, what }, &mut out)?;
    push_told(
        &Told::Claim {
            slot: 0,
            p: 9,
            what: Claimed::Faulted,
        },
        &mut out,
    )?;
    push_told(
        &Told::Committed {
            slot: 12,
            panes: 2,
            drops: 1,
        },
        &mut out,
    )?;
    push_range(b"done", 0, 0, range, &mut out)?;
    push_position(b"dead", 0, 1, 9, &mut out)?;
    let text =
        b"take 0 range 0 0 0 27\nclaim 0 9 faulted\ncommit 12 panes 2 drops 1\ndone 0 0 0 27\ndead 0 1 9\n";
    assert!(rt; out.as_slice() == text.as_slice());
    Ok(())
}
