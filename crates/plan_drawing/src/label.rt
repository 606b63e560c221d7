//! Texts and numbers in a label, and its lines, one by one.

ghost use Rattle.std.specs.Prelude.{◌≡◌, ◌++◌, OnOk, decimal};
ghost use Rattle.std.specs.Fmt.{signed_decimal};
ghost use Rattle.plan_drawing.specs.Labels.{label_byte, label_text, line_break, milliseconds};

use beam_text::push_escaped;
use beam_values::{List, NoMemory};
use itoa::Buffer;

/// Appends a text as a label has it.
pub(crate) fn push_text(text: &[u8], out: &mut List<u8>) -> Result<(), NoMemory>
    ensures { OnOk result (out.new ≡ out.old ++ label_text text.now) }
{
    for byte in text {
        push_byte(*byte, out)?;
    }
    Ok(())
}

fn push_byte(byte: u8, out: &mut List<u8>) -> Result<(), NoMemory>
    ensures { OnOk result (out.new ≡ out.old ++ label_byte byte) }
{
    if byte == b'&' {
        out.extend_from_slice(b"&amp;")
    } else if byte < b' ' || byte == 127 {
        out.push(b'\\')?;
        push_escaped(byte, out)
    } else if byte == b'"' || byte == b'\\' {
        push_escaped(byte, out)
    } else {
        out.push(byte)
    }
}

/// Appends a line of words.
pub(crate) fn push_line(words: &[u8], out: &mut List<u8>) -> Result<(), NoMemory>
    ensures { OnOk result (out.new ≡ out.old ++ (line_break ++ words.now)) }
{
    out.extend_from_slice(b"\\n")?;
    out.extend_from_slice(words)
}

/// Appends a line of words and a word.
pub(crate) fn push_word_line(words: &[u8], word: &[u8], out: &mut List<u8>) -> Result<(), NoMemory>
    ensures { OnOk result (out.new ≡ out.old ++ (line_break ++ (words.now ++ word.now))) }
{
    push_line(words, out)?;
    out.extend_from_slice(word)
}

/// Appends a line of words and a text.
pub(crate) fn push_text_line(words: &[u8], text: &[u8], out: &mut List<u8>) -> Result<(), NoMemory>
    ensures { OnOk result
        (out.new ≡ out.old ++ (line_break ++ (words.now ++ label_text text.now))) }
{
    push_line(words, out)?;
    push_text(text, out)
}

/// Appends a line of words and a count.
pub(crate) fn push_count_line(words: &[u8], count: u64, out: &mut List<u8>) -> Result<(), NoMemory>
    ensures { OnOk result (out.new ≡ out.old ++ (line_break ++ (words.now ++ decimal count))) }
{
    push_word_line(words, Buffer::new().format(count).as_bytes(), out)
}

/// Appends a line of words and a number.
pub(crate) fn push_number_line(
    words: &[u8],
    number: i64,
    out: &mut List<u8>,
) -> Result<(), NoMemory>
    ensures { OnOk result
        (out.new ≡ out.old ++ (line_break ++ (words.now ++ signed_decimal number))) }
{
    push_word_line(words, Buffer::new().format(number).as_bytes(), out)
}

/// Appends words and a length of time.
pub(crate) fn push_span(words: &[u8], span: i64, out: &mut List<u8>) -> Result<(), NoMemory>
    ensures { OnOk result (out.new ≡ out.old ++ (words.now ++ milliseconds span)) }
{
    out.extend_from_slice(words)?;
    out.extend_from_slice(Buffer::new().format(span).as_bytes())?;
    out.extend_from_slice(b" ms")
}

/// Appends a line of words and a length of time.
pub(crate) fn push_span_line(words: &[u8], span: i64, out: &mut List<u8>) -> Result<(), NoMemory>
    ensures { OnOk result (out.new ≡ out.old ++ (line_break ++ (words.now ++ milliseconds span))) }
{
    out.extend_from_slice(b"\\n")?;
    push_span(words, span, out)
}
