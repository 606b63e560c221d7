ghost use Rattle.std.specs.Prelude.{◌≡◌, ◌+◌, ◌-◌, ◌≤◌, ℕ, ◌==◌, length, take, drop, min};
ghost use Rattle.std.specs.List.{position_or_len};
ghost use Rattle.beam_values.specs.Lines.{starts_line, line_len, first_line, without_return};

use memchr::memchr;

const LF: u8 = b'\n';

const CR: u8 = b'\r';

/// How many bytes stand before the first `byte`, or before the end of the text.
pub fn len_before(byte: u8, text: &[u8]) -> usize
    ensures value { result ≡ position_or_len (λ b. b == byte) text.now }
    ensures within { result ≤ length text.now }
{
    match memchr(byte, text) {
        Some(at) => at,
        None => text.len(),
    }
}

/// A line starts at the start of a file and after each LF.
pub fn starts_line(file: &[u8], p: usize) -> bool
    requires { p ≤ length file.now }
    ensures { result ≡ starts_line file.now p }
{
    p == 0 || file[p - 1] == LF
}

/// The line that a text begins with, and where the next one would start.
#[derive(Clone, Copy)]
pub struct FirstLine<'a> {
    /// Without the LF that ends it, and without a CR directly before that LF.
    pub text: &'a [u8],
    /// Counted from the start of the text: after the LF, or the end of input.
    pub next: usize,
}

/// The first line of `rest`.
pub fn first_line(rest: &[u8]) -> FirstLine<'_>
    ensures text { result.text.now ≡ first_line rest.now }
    ensures next { result.next ≡ min (line_len rest.now + 1) (length rest.now) }
{
    let len = len_before(LF, rest);
    if len < rest.len() {
        FirstLine {
            text: without_return(rest.split_at(len).0),
            next: len + 1,
        }
    } else {
        FirstLine {
            text: rest,
            next: len,
        }
    }
}

fn without_return(text: &[u8]) -> &[u8]
    ensures { result.now ≡ without_return text.now }
{
    match text.split_last() {
        Some((last, before)) if *last == CR => before,
        _ => text,
    }
}
