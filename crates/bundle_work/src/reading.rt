ghost use Rattle.std.specs.Prelude.{◌≡◌, ◌≤◌, ◌<◌, ◌++◌, length, map, take, true, false, slice_get};
ghost use Rattle.std.specs.Prelude.{Some, IfOk, OnOk, MatchOption};
ghost use Rattle.std.specs.List.{list_any};
ghost use Rattle.beam_values.specs.Checked.{file_count};
ghost use Rattle.beam_model.specs.Functions.{first_arg};
ghost use Rattle.bundle_work.specs.Openings.{names_in};
ghost use Rattle.bundle_work.specs.Reading.{file_readers, is_reader_for, length_in, readers_from};
ghost use Rattle.bundle_work.specs.Reading.{readers_of_kind};
ghost use Rattle.bundle_work.specs.declared.reading.Reader.{Reader};

use beam_ports::Opened;
use beam_values::{Args, Bytes, FileLen, List, NoMemory, Node, NodeKind, Piece, SourceKind};
use std::alloc::Global;

/// An item of a source, as a store has opened it. Of what is counted or made only the length tells something.
#[derive(Clone, Copy, Debug, PartialEq, Eq)]
pub struct Reader {
    pub node: u32,
    pub item: u32,
    /// The number of the opened file.
    pub file: u32,
    pub len: u64,
}

/// A reader for each item of the sources, by node and item. The files are those of the plan, in this order.
pub fn readers_of(alloc: Global, nodes: &[Node], files: &[Opened]) -> Result<Vec<Reader>, NoMemory>
    requires nodes { length nodes.now ≤ 64 }
    requires files { file_count nodes.now ≤ 256 }
    ensures { IfOk result (λ readers. readers.items ≡ readers_from 0 nodes.now files.now) }
{
    let mut readers = Vec::new(alloc);
    let mut rest = files;
    for number in 0..nodes.len() as u32 {
        let kind = &nodes[number as usize].kind;
        add_readers(number, kind, rest, &mut readers)?;
        rest = rest.split_at(names_in(kind).len().min(rest.len())).1;
    }
    Ok(readers)
}

/// The names of the files that a source reads; what is counted or made has none.
pub fn names_in(kind: &NodeKind) -> &[Bytes]
    ensures { result.now ≡ names_in kind.now }
{
    match kind {
        NodeKind::Source { files, .. } => files.as_slice(),
        _ => &[],
    }
}

fn add_readers(
    node: u32,
    kind: &NodeKind,
    opened: &[Opened],
    readers: &mut Vec<Reader>,
) -> Result<(), NoMemory>
    requires { length (names_in kind.now) ≤ 256 }
    ensures { OnOk result
        (readers.new.items ≡ readers.old.items ++ readers_of_kind node kind.now opened.now) }
{
    let NodeKind::Source {
        work,
        args,
        files,
        ..
    } = kind
    else {
        return Ok(());
    };
    match work {
        SourceKind::Lines | SourceKind::TimedLines => {
            let own = opened.split_at(files.len().min(opened.len())).0;
            add_files(node, own, readers)
        }
        SourceKind::Count | SourceKind::Made => {
            readers.push(Reader {
                node,
                item: 0,
                file: 0,
                len: count_in(args),
            })?;
            Ok(())
        }
    }
}

fn add_files(node: u32, opened: &[Opened], readers: &mut Vec<Reader>) -> Result<(), NoMemory>
    requires { length opened.now ≤ 256 }
    ensures { OnOk result (readers.new.items ≡ readers.old.items ++ file_readers node opened.now) }
{
    for item in 0..opened.len() as u32 {
        let file = opened[item as usize];
        readers.push(Reader {
            node,
            item,
            file: file.file,
            len: file.len,
        })?;
    }
    Ok(())
}

// How many elements are counted or made.
fn count_in(args: &Args) -> u64
    ensures { result ≡ first_arg args.now }
{
    match args {
        Args::Two(count, _) => *count,
        _ => 0,
    }
}

/// The lengths of the items.
pub fn lengths_of(alloc: Global, readers: &[Reader]) -> Result<List<FileLen>, NoMemory>
    ensures { IfOk result (λ lengths. lengths ≡ map length_in readers.now) }
{
    let mut lengths = List::new(alloc);
    for reader in readers {
        lengths.push(FileLen {
            node: reader.node,
            item: reader.item,
            len: reader.len,
        })?;
    }
    Ok(lengths)
}

/// The place of the reader of a piece's item. Most often it is the last that was used, so that one is
/// looked at first.
pub fn place_of(readers: &[Reader], last: usize, piece: &Piece) -> Option<usize>
    ensures { MatchOption result (list_any (is_reader_for piece.now) readers.now ≡ false)
        (λ at. (reader : Reader) × (slice_get readers.now at ≡ Some reader)
        × (is_reader_for piece.now reader ≡ true)) }
{
    match readers.get(last) {
        Some(reader) if is_for(reader, piece) => Some(last),
        _ => find_reader(readers, piece),
    }
}

fn find_reader(readers: &[Reader], piece: &Piece) -> Option<usize>
    ensures { MatchOption result (list_any (is_reader_for piece.now) readers.now ≡ false)
        (λ at. (reader : Reader) × (slice_get readers.now at ≡ Some reader)
        × (is_reader_for piece.now reader ≡ true)) }
{
    for at in 0..readers.len() {
        if is_for(&readers[at], piece) {
            return Some(at);
        }
    }
    None
}

// Whether it is of the piece's item and reaches the piece's end.
fn is_for(reader: &Reader, piece: &Piece) -> bool
    ensures { result ≡ is_reader_for piece.now reader.now }
{
    reader.node == piece.node && reader.item == piece.item && piece.range.to() <= reader.len
}
