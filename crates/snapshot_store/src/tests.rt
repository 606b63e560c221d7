//! A small book as bytes that were worked out by hand, and one snapshot for each refusal.

use crate::{SnapReadRefusal, SnapRefusal, read_snapshot, write_snapshot};
use beam_coders::CoderRefusal;
use beam_values::{
    Boxed, Bytes, CommitMarks, FileLen, List, LogEntry, LogInput, Mark, Options, Plan, Span, Time,
    Timer, Value,
};
use book_core::{BookData, WaitingPane};
use stateful_core::{KeyData, SetTimer};
use std::alloc::Global;
use std::test::Fail;

// The parts of a snapshot, by hand.
fn snapshot(alloc: Global) -> Result<Bytes, Fail> {
    let parts: &[&[u8]] = &[
        b"BSN1",
        // A Seq of sixteen.
        &[4, 16],
        // The plan: its version 1, and no nodes.
        &[4, 2, 1, 1, 4, 0],
        // One file: of the node 0 the item 2, 27 bytes long.
        &[4, 1, 4, 3, 1, 0, 1, 2, 1, 27],
        // The options 4, 64, 65536 and 3.
        &[4, 4, 1, 4, 1, 64, 1, 0x80, 0x80, 4, 1, 3],
        // No pieces.
        &[4, 0],
        // The pane 7 waits and holds its Group back at 20.
        &[4, 1, 4, 2, 1, 7, 1, 20],
        // No batches, no cells, and nothing dropped.
        &[4, 0, 4, 0, 4, 0],
        // One key cell of eight fields: the node 2, the key Null, the window [0, 10), no state cells,
        &[4, 1, 4, 8, 1, 2, 0, 4, 2, 1, 0, 1, 10, 4, 0],
        // the timer 3 that is due at 5 and holds the node back at 9, nothing that waits, one failure,
        &[4, 1, 4, 2, 4, 2, 1, 3, 1, 5, 1, 9, 4, 0, 1, 1],
        // and one call: of the variant 1 with that timer, in the commit 6, with no outputs.
        &[4, 1, 4, 3, 3, 1, 1, 4, 1, 4, 2, 1, 3, 1, 5, 1, 6, 4, 0],
        // No panes, nothing done, dead or written.
        &[4, 0, 4, 0, 4, 0, 4, 0],
        // One commit, without marks.
        &[4, 1, 4, 1, 4, 0],
        // 2 calls failed, and 2 ^ 64 - 1 reads, of which each bit is 1.
        &[1, 2, 1, 255, 255, 255, 255, 255, 255, 255, 255, 255, 1],
    ];
    let mut bytes = Bytes::new(alloc);
    for part in parts {
        bytes.extend_from_slice(part)?;
    }
    Ok(bytes)
}

fn one<T: Drop>(alloc: Global, item: T) -> Result<List<T>, Fail> {
    let mut items = List::new(alloc);
    items.push(item)?;
    Ok(items)
}

fn timer() -> Result<Timer, Fail> {
    Ok(Timer {
        name: 3,
        time: Time::new(5).ok_or("no time")?,
    })
}

fn mark(ms: i64) -> Result<Mark, Fail> {
    Ok(Mark::at(Time::new(ms).ok_or("no time")?))
}

fn key_cell(alloc: Global) -> Result<KeyData, Fail> {
    let call = LogEntry {
        input: LogInput::Fired(timer()?),
        commit: 6,
        outputs: List::new(alloc),
    };
    let timer = SetTimer {
        timer: timer()?,
        hold: mark(9)?,
    };
    Ok(KeyData {
        node: 2,
        key: Value::Null,
        span: Span::new(0, 10).ok_or("no window")?,
        state: List::new(alloc),
        timers: one(alloc, timer)?,
        waiting: List::new(alloc),
        attempts: 1,
        log: one(alloc, call)?,
    })
}

fn book(alloc: Global) -> Result<BookData, Fail> {
    let file = FileLen {
        node: 0,
        item: 2,
        len: 27,
    };
    let pane = WaitingPane {
        pane: 7,
        hold: mark(20)?,
    };
    let commit = CommitMarks {
        marks: Boxed::new(alloc, List::new(alloc))?,
    };
    Ok(BookData {
        plan: Plan {
            version: 1,
            nodes: List::new(alloc),
        },
        files: one(alloc, file)?,
        options: Options::DEFAULT,
        pending: List::new(alloc),
        waiting: one(alloc, pane)?,
        returned: List::new(alloc),
        cells: List::new(alloc),
        dropped: List::new(alloc),
        keys: one(alloc, key_cell(alloc)?)?,
        panes: List::new(alloc),
        done: List::new(alloc),
        dead: List::new(alloc),
        written: List::new(alloc),
        commits: one(alloc, commit)?,
        calls: 2,
        reads: u64::MAX,
    })
}

#[test]
fn a_book_is_written_as_its_bytes_and_read_again(rt: HostRuntime) -> Result<(), Fail> {
    let alloc = rt.alloc();
    let by_hand = snapshot(alloc)?;
    let bytes = write_snapshot(alloc, &book(alloc)?)?;
    assert_eq!(rt; bytes.as_slice(), by_hand.as_slice());
    let Ok(again) = read_snapshot(alloc, by_hand.as_slice()) else {
        return Err("refused".into());
    };
    assert_eq!(rt; again.reads, u64::MAX);
    assert_eq!(rt; again.keys.len(), 1);
    let bytes = write_snapshot(alloc, &again)?;
    assert_eq!(rt; bytes.as_slice(), by_hand.as_slice());
    Ok(())
}

fn refusal_of(alloc: Global, bytes: &[u8]) -> Option<SnapReadRefusal> {
    read_snapshot(alloc, bytes).err()
}

#[test]
fn each_refusal_is_the_first_rule_that_fails(rt: HostRuntime) -> Result<(), Fail> {
    let alloc = rt.alloc();
    let bad = |refusal| Some(SnapReadRefusal::Bad(refusal));
    assert_eq!(rt; refusal_of(alloc, b""), bad(SnapRefusal::Magic));
    assert_eq!(rt; refusal_of(alloc, b"BSN2"), bad(SnapRefusal::Magic));
    let short = bad(SnapRefusal::Coder(CoderRefusal::Short));
    assert_eq!(rt; refusal_of(alloc, b"BSN1"), short);
    let mut bytes = snapshot(alloc)?;
    bytes.truncate(bytes.len().saturating_sub(1));
    assert_eq!(rt; refusal_of(alloc, bytes.as_slice()), short);
    let tag = bad(SnapRefusal::Coder(CoderRefusal::Tag(5)));
    assert_eq!(rt; refusal_of(alloc, b"BSN1\x05"), tag);
    // Null is no book, but what follows it is told first.
    assert_eq!(rt; refusal_of(alloc, b"BSN1\x00\x07"), bad(SnapRefusal::Rest));
    assert_eq!(rt; refusal_of(alloc, b"BSN1\x00"), bad(SnapRefusal::Shape));
    let mut bytes = snapshot(alloc)?;
    bytes.push(0)?;
    assert_eq!(rt; refusal_of(alloc, bytes.as_slice()), bad(SnapRefusal::Rest));
    let mut stored = book(alloc)?;
    stored.options.workers = 17;
    let bytes = write_snapshot(alloc, &stored)?;
    assert_eq!(rt;
        refusal_of(alloc, bytes.as_slice()),
        bad(SnapRefusal::Shape)
    );
    Ok(())
}
