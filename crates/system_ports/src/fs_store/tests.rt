//! The store over real files in a folder of its own, which it takes away again.
use super::{File, Files, FsStore, PLACES};
use beam_ports::{Failed, OpenRefusal, Store};
use std::test::Fail;
use std::{fs, process};

// The length, and how many bytes from `at` on were read.
fn open_and_read<S: Store>(
    store: &mut S,
    name: &str,
    at: u64,
    buf: &mut [u8],
) -> Result<(u64, usize), OpenRefusal> {
    let opened = store.open_file(name.as_bytes())?;
    match store.read_at(opened.file, at, buf) {
        Ok(count) => Ok((opened.len, count)),
        Err(Failed) => Err(OpenRefusal::Failed),
    }
}

// Reads the first file from its start, whichever file is open.
fn reread<R: Files<File = File> + AllocGlobal + Drop + Send>(
    store: &mut FsStore<R>,
    buf: &mut [u8],
) -> Result<usize, Failed> {
    if store.places.is_empty() {
        return Err(Failed);
    }
    store.read_at(0, 0, buf)
}

#[test]
fn real_files_are_read(rt: HostRuntime) -> Result<(), Fail> {
    let alloc = rt.alloc();
    let folder = format!(in alloc; "/tmp/kenopeach-store-{}", process::id(rt.process()))?;
    fs::create_dir(&rt, folder.as_str())?;
    let lines = format!(in alloc; "{folder}/lines")?;
    let empty = format!(in alloc; "{folder}/empty")?;
    let missing = format!(in alloc; "{folder}/missing")?;
    fs::write(&rt, lines.as_str(), "one two")?;
    fs::write(&rt, empty.as_str(), "")?;

    let mut store = FsStore::new(rt)?;
    let rows = [
        (lines.as_str(), 4, Ok((7, 3)), b"two.."),
        (lines.as_str(), 7, Ok((7, 0)), b"....."),
        (lines.as_str(), 0, Ok((7, 5)), b"one t"),
        (empty.as_str(), 0, Ok((0, 0)), b"....."),
        (missing.as_str(), 0, Err(OpenRefusal::Absent), b"....."),
        ("no\0name", 0, Err(OpenRefusal::Absent), b"....."),
        ("", 0, Err(OpenRefusal::Absent), b"....."),
    ];
    for (name, at, want, left) in rows {
        let mut buf = *b".....";
        assert_eq!(rt;
            open_and_read(&mut store, name, at, &mut buf),
            want,
            "{name} at {at}"
        );
        assert_eq!(rt; buf.as_slice(), left.as_slice(), "{name} at {at}");
    }
    assert_eq!(rt; store.open_file(b"\xff"), Err(OpenRefusal::Absent));
    assert_eq!(rt; store.faults, 0);

    // A folder is no empty file.
    assert_eq!(rt;
        store.open_file(folder.as_bytes()),
        Err(OpenRefusal::Failed)
    );
    assert_eq!(rt; store.faults, 1);

    // The first file is opened anew, and then is shorter than it was.
    let mut buf = *b".....";
    assert_eq!(rt; reread(&mut store, &mut buf), Ok(5));
    fs::write(&rt, lines.as_str(), "one")?;
    assert_eq!(rt; reread(&mut store, &mut buf), Err(Failed));
    assert_eq!(rt; store.faults, 2);

    // Another file has its name.
    let other = format!(in alloc; "{folder}/other")?;
    fs::write(&rt, other.as_str(), "two one")?;
    fs::rename(&rt, other.as_str(), lines.as_str())?;
    assert_eq!(rt; reread(&mut store, &mut buf), Err(Failed));
    assert_eq!(rt; store.faults, 3);

    for _ in store.places.len()..PLACES {
        assert!(rt; store.open_file(empty.as_bytes()).is_ok());
    }
    assert_eq!(rt; store.open_file(empty.as_bytes()), Err(OpenRefusal::Failed));
    assert_eq!(rt; store.faults, 4);
    fs::remove_dir_all(&rt, folder.as_str())?;
    Ok(())
}
