//! The sinks over a real file and over writers that take nothing.
use super::{ErrSink, OutSink};
use beam_ports::{Failed, Sink};
use std::io::Cursor;
use std::test::Fail;
use std::{fs, process};

#[test]
fn writers_are_written_to_once_a_call(rt: HostRuntime) -> Result<(), Fail> {
    let alloc = rt.alloc();
    let path = format!(in alloc; "/tmp/kenopeach-sink-{}", process::id(rt.process()))?;
    let mut out = OutSink::new(fs::create(&rt, path.as_str())?);
    assert_eq!(rt; out.write(b"text"), Ok(4));
    assert_eq!(rt; out.faults, 0);
    assert_eq!(rt; fs::read_to_string(&rt, path.as_str())?.as_str(), "text");

    // What is open for reading alone can't be written to.
    let mut out = OutSink::new(fs::open(&rt, path.as_str())?);
    assert_eq!(rt; out.write(b"text"), Err(Failed));
    assert_eq!(rt; out.faults, 1);

    // There is room for three bytes.
    let mut notes = ErrSink::new(Cursor::new([0u8; 3]));
    assert_eq!(rt; notes.write(b"text"), Ok(3));
    assert_eq!(rt; notes.write(b"t"), Err(Failed));
    assert_eq!(rt; notes.faults, 1);
    fs::remove_file(&rt, path.as_str())?;
    Ok(())
}
