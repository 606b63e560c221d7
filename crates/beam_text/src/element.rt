ghost use Rattle.std.specs.Prelude.{◌≡◌, ◌++◌, ◌∷◌, [], OnOk, true};
ghost use Rattle.beam_values.specs.Texts.{element_line, timing_text, value_text};
ghost use Rattle.beam_text.specs.Parts.{line_front};

use crate::push_value;
use beam_values::{Element, List, NoMemory, Timing, Value};
use itoa::Buffer;

/// Appends the line of a written element: its window, the timing and index of its pane, and its value.
pub fn push_element(element: &Element, out: &mut List<u8>) -> Result<(), NoMemory>
    ensures { OnOk result (out.new ≡ out.old ++ element_line element.now) }
{
    push_front(element, out)?;
    push_value(&element.value, out)?;
    out.push(b'\n')
}

/// Appends the front of an element's line, which is all that stands before its value.
pub(crate) fn push_front(element: &Element, out: &mut List<u8>) -> Result<(), NoMemory>
    ensures { OnOk result (out.new ≡ out.old ++ line_front element.now) }
{
    let mut digits = Buffer::new();
    push_field(digits.format(element.span.start()).as_bytes(), out)?;
    push_field(digits.format(element.span.end()).as_bytes(), out)?;
    push_field(timing_text(element.pane.timing), out)?;
    push_field(digits.format(element.pane.index).as_bytes(), out)
}

/// Whether the lines of two elements differ in their values alone.
pub(crate) fn has_same_front(a: &Element, b: &Element) -> bool
    ensures { result ≡ true → line_front a.now ≡ line_front b.now }
{
    a.span == b.span && a.pane == b.pane
}

/// Appends a line whose front is known.
pub(crate) fn push_line(front: &[u8], value: &Value, out: &mut List<u8>) -> Result<(), NoMemory>
    ensures { OnOk result (out.new ≡ out.old ++ (front.now ++ (value_text value.now ++ 10 ∷ []))) }
{
    out.extend_from_slice(front)?;
    push_value(value, out)?;
    out.push(b'\n')
}

// A field and the TAB after it.
pub(crate) fn push_field(text: &[u8], out: &mut List<u8>) -> Result<(), NoMemory>
    ensures { OnOk result (out.new ≡ out.old ++ (text.now ++ 9 ∷ [])) }
{
    out.extend_from_slice(text)?;
    out.push(b'\t')
}

fn timing_text(timing: Timing) -> &'static [u8]
    ensures { result.now ≡ timing_text timing }
{
    match timing {
        Timing::Early => b"EARLY",
        Timing::OnTime => b"ON_TIME",
        Timing::Late => b"LATE",
        Timing::Unknown => b"UNKNOWN",
    }
}
