ghost use Rattle.std.specs.Prelude.{◌≡◌, true};
ghost use Rattle.beam_ports.specs.ShrunkMemory.{AreClaimed};

use crate::case::Case;
use beam_ports::ShrunkStore;
use beam_values::{FileText, List};

/// A store over these files that says these lengths of them. None may be below its file's.
pub fn shrunk_store(
    files: List<FileText>,
    lengths: List<u64>,
    case: &mut Case<'_>,
) -> Option<ShrunkStore> {
    if are_claimed(files.as_slice(), lengths.as_slice()) {
        return Some(ShrunkStore::new(files, lengths));
    }
    case.fail("a file is longer than its store says");
    None
}

fn are_claimed(files: &[FileText], lengths: &[u64]) -> bool
    ensures { result ≡ true → AreClaimed files.now lengths.now }
{
    files.len() == lengths.len()
        && files
            .iter()
            .zip(lengths.iter())
            .all(|(file, len)| file.bytes.len() as u64 <= *len)
}
