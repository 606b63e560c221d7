//! Each source on what it takes, those of files by way of a pager, and a read that fails. The expected
//! values are counted by hand.
ghost use Rattle.std.specs.Prelude.{◌≡◌, ◌<◌, [], true, IsSomeAnd};
ghost use Rattle.beam_values.specs.Checked.{is_source_argument, reads_file};
ghost use Rattle.dofn_traits.specs.Calls.{IsView};
ghost use Rattle.sdf_library.specs.Paging.{HoldsFile};

use beam_ports::{MemoryStore, Store};
use beam_values::{Args, Bytes, FileText, List, NoMemory, Time, Value};
use dofn_traits::{CallRefusal, Emission, Found, SplittableFn, Timed};
use sdf_library::{Count, Lines, Made, PageRefusal, Pager, TimedLines};
use std::alloc::Global;
use std::test::Fail;

// A pager may go to the thread of a worker.
fn handed<T: Send>(value: T) -> T
    ensures { result ≡ value }
{
    value
}

fn no_emission(alloc: Global) -> Emission {
    Emission {
        items: List::new(alloc),
        declared: None,
    }
}

fn store_of(alloc: Global, text: &[u8], failing: &[u64]) -> Result<MemoryStore, NoMemory> {
    let mut files = List::new(alloc);
    files.push(FileText {
        name: Bytes::from_slice(alloc, b"f")?,
        bytes: Bytes::from_slice(alloc, text)?,
    })?;
    Ok(MemoryStore::new(files, List::from_slice(alloc, failing)?))
}

// What a source emits of a whole file, position by position.
fn emitted<F: SplittableFn, S: Store>(
    alloc: Global,
    source: F,
    store: &mut S,
) -> Result<Emission, CallRefusal>
    requires allowed { is_source_argument (F.work source) Args.Nothing ≡ true }
    requires reads { reads_file (F.work source) ≡ true }
{
    let mut source = source;
    let Ok(opened) = store.open_file(b"f") else {
        return Err(CallRefusal::Failed);
    };
    let mut pager = Pager::new(alloc, opened.file, opened.len);
    let mut out = no_emission(alloc);
    let mut p = 0;
    while p < opened.len {
        let Ok(look) = pager.look(store, p, false) else {
            return Err(CallRefusal::Failed);
        };
        let found = source.call(&Args::Nothing, look.bytes, look.base, look.len, p, &mut out)?;
        let Found::Here(next) = found else {
            return Err(CallRefusal::Failed);
        };
        p = next;
    }
    Ok(out)
}

// What a source without files emits at a position.
fn given<F: SplittableFn>(
    alloc: Global,
    source: F,
    args: Args,
    len: u64,
    p: u64,
) -> Result<Emission, CallRefusal>
    requires allowed { is_source_argument (F.work source) args ≡ true }
    requires view { IsView (F.work source) args [] 0 len p }
{
    let mut source = source;
    let mut out = no_emission(alloc);
    source.call(&args, &[], 0, len, p, &mut out)?;
    Ok(out)
}

// Whether exactly these texts were emitted, at these times.
fn has_texts(given: &Result<Emission, CallRefusal>, expected: &[(&[u8], i64)]) -> bool {
    let Ok(emission) = given else {
        return false;
    };
    emission.items.len() == expected.len()
        && emission
            .items
            .as_slice()
            .iter()
            .zip(expected)
            .all(|(item, expected)| is_text(item, expected.0, expected.1))
}

fn is_text(item: &Timed, text: &[u8], ms: i64) -> bool {
    match &item.value {
        Value::Blob(bytes) => bytes.as_slice() == text && item.time.ms() == ms,
        _ => false,
    }
}

// Where what is held begins after a look, and how many bytes that is.
fn held_after<S: Store>(store: &mut S, pager: &mut Pager, p: u64, more: bool) -> Option<(u64, u64)>
    requires inside { p < pager.old.len }
    requires open { IsSomeAnd (S.opened store.old pager.old.file)
        (λ opening. opening.len ≡ pager.old.len) }
    requires held { HoldsFile (S.opened store.old pager.old.file) pager.old }
    ensures file { pager.new.file ≡ pager.old.file }
    ensures len { pager.new.len ≡ pager.old.len }
    ensures open { IsSomeAnd (S.opened store.new pager.new.file)
        (λ opening. opening.len ≡ pager.new.len) }
    ensures held { HoldsFile (S.opened store.new pager.new.file) pager.new }
{
    match pager.look(store, p, more) {
        Ok(look) => Some((look.base, look.bytes.len() as u64)),
        Err(_) => None,
    }
}

#[test]
fn lines_of_a_file(rt: HostRuntime) -> Result<(), Fail> {
    let alloc = rt.alloc();
    let mut store = store_of(alloc, b"a\r\n\nlast", &[])?;
    let lines = emitted(alloc, Lines::new(alloc), &mut store);
    let expected = [
        (b"a".as_slice(), Time::LEAST_MS),
        (b"", Time::LEAST_MS),
        (b"last", Time::LEAST_MS),
    ];
    assert!(rt; has_texts(&lines, &expected));
    Ok(())
}

#[test]
fn timed_lines_of_a_file(rt: HostRuntime) -> Result<(), Fail> {
    let alloc = rt.alloc();
    let mut store = store_of(alloc, b"-5\ta\tb\n!7\n3\t\n", &[])?;
    let lines = emitted(alloc, TimedLines::new(alloc), &mut store);
    assert!(rt; has_texts(&lines, &[(b"a\tb".as_slice(), -5), (b"", 3)]));
    let declared = lines.ok().and_then(|emission| emission.declared);
    assert_eq!(rt; declared, Time::new(7));
    Ok(())
}

#[test]
fn counted_and_made_numbers(rt: HostRuntime) -> Result<(), Fail> {
    let alloc = rt.alloc();
    let made = given(alloc, Made::new(alloc), Args::Two(4, 7), 4, 0);
    assert!(rt; has_texts(&made, &[(b"k7\t7".as_slice(), 59)]));
    let counted = given(alloc, Count::new(alloc), Args::Two(4, 1000), 4, 3)?;
    assert_eq!(rt; counted.items.len(), 1);
    let item = counted.items.get(0).ok_or("nothing")?;
    assert_eq!(rt; item.time.ms(), 3000);
    assert!(rt; matches!(item.value, Value::Int(3)));
    Ok(())
}

#[test]
fn a_failed_read_is_told(rt: HostRuntime) -> Result<(), Fail> {
    let alloc = rt.alloc();
    let mut store = store_of(alloc, b"ab", &[1])?;
    let Ok(opened) = store.open_file(b"f") else {
        return Err("absent")?;
    };
    assert_eq!(rt; opened.len, 2);
    let mut pager = handed(Pager::new(alloc, opened.file, opened.len));
    let failed = pager.hold_line(&mut store, 1);
    assert_eq!(rt; failed, Err(PageRefusal::Failed));
    assert_eq!(rt; store.faults(), 1);
    assert_eq!(rt; pager.bytes().bytes.len(), 0);
    assert_eq!(rt; pager.hold_line(&mut store, 1), Ok(()));
    assert_eq!(rt; pager.bytes().bytes, b"ab".as_slice());
    Ok(())
}

#[test]
fn what_was_released_is_read_again(rt: HostRuntime) -> Result<(), Fail> {
    let alloc = rt.alloc();
    // The file is opened and read; a second read fails.
    let mut store = store_of(alloc, b"ab\ncd", &[2])?;
    let Ok(opened) = store.open_file(b"f") else {
        return Err("absent")?;
    };
    assert_eq!(rt; opened.len, 5);
    let mut pager = Pager::new(alloc, opened.file, opened.len);
    assert_eq!(rt; pager.hold_line(&mut store, 0), Ok(()));
    assert_eq!(rt; pager.held(), 5);
    pager.note_line(0, 3);
    pager.release();
    assert_eq!(rt; pager.held(), 0);
    assert_eq!(rt; pager.next_line(2), Some(3));
    assert_eq!(rt; pager.next_line(3), None);
    assert_eq!(rt; pager.hold_line(&mut store, 3), Err(PageRefusal::Failed));
    Ok(())
}

// Whether looks at a file, one after another, leave this: of each row the position, whether more is asked
// for, where what is held begins then, and how many bytes that is.
fn has_held<S: Store>(alloc: Global, store: &mut S, rows: &[(u64, bool, u64, u64)]) -> bool {
    let Ok(opened) = store.open_file(b"f") else {
        return false;
    };
    let mut pager = Pager::new(alloc, opened.file, opened.len);
    for (p, more, base, held) in rows {
        if *p >= opened.len {
            return false;
        }
        if held_after(store, &mut pager, *p, *more) != Some((*base, *held)) {
            return false;
        }
    }
    true
}

#[test]
fn a_long_line_is_held_block_by_block(rt: HostRuntime) -> Result<(), Fail> {
    let alloc = rt.alloc();
    let line = vec![in alloc; b'x'; 200000]?;
    // The file is opened and read four times; a fifth read would fail.
    let mut store = store_of(alloc, line.as_slice(), &[5])?;
    let rows = [
        (0, false, 0, 65536),
        (0, true, 0, 131072),
        (0, true, 0, 196608),
        (0, true, 0, 200000),
        (0, true, 0, 200000),
        (120001, false, 120000, 65536),
        (120002, false, 120000, 65536),
    ];
    assert!(rt; has_held(alloc, &mut store, &rows));
    assert_eq!(rt; store.faults(), 0);
    Ok(())
}

// How many bytes are held at most where each line of a file is held in turn; none where that is refused.
fn most_held<S: Store>(alloc: Global, store: &mut S, starts: &[u64]) -> Option<u64> {
    let Ok(opened) = store.open_file(b"f") else {
        return None;
    };
    let mut pager = Pager::new(alloc, opened.file, opened.len);
    let mut most = 0;
    for p in starts {
        if *p >= opened.len {
            return None;
        }
        if pager.hold_line(store, *p).is_err() {
            return None;
        }
        most = most.max(pager.held());
    }
    Some(most)
}

#[test]
fn long_lines_are_held_one_by_one(rt: HostRuntime) -> Result<(), Fail> {
    let alloc = rt.alloc();
    // Eight lines of 70000 bytes, in nine blocks: a tenth read would fail.
    let mut text = vec![in alloc; b'x'; 560000]?;
    for line in 1..9 {
        if let Some(end) = text.get_mut(line * 70000 - 1) {
            *end = b'\n';
        }
    }
    let mut store = store_of(alloc, text.as_slice(), &[10])?;
    let starts = [0, 70000, 140000, 210000, 280000, 350000, 420000, 490000];
    assert_eq!(rt; most_held(alloc, &mut store, &starts), Some(131072));
    Ok(())
}
