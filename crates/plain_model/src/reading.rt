ghost use Rattle.std.specs.Prelude.{◌≡◌, IfOk};
ghost use Rattle.plain_model.specs.Emissions.{file_lines};

use beam_lines::{first_line, starts_line};
use beam_values::{Bytes, List, NoMemory};
use std::alloc::Global;

/// The lines of a file in order, each without its end (TextIO).
pub fn lines(alloc: Global, file: &[u8]) -> Result<List<Bytes>, NoMemory>
    ensures { IfOk result (λ lines. lines ≡ file_lines file.now) }
{
    let mut lines = List::new(alloc);
    for p in 0..file.len() {
        if starts_line(file, p) {
            let line = first_line(file.split_at(p).1);
            lines.push(Bytes::from_slice(alloc, line.text)?)?;
        }
    }
    Ok(lines)
}
