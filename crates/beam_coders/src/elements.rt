ghost use Rattle.std.specs.Prelude.{◌≡◌, ◌≢◌, ◌++◌, ◌≤◌, ◌<◌, ◌^◌, ◌<ℤ◌, ℕ, List as ListOf, Ok};
ghost use Rattle.std.specs.Prelude.{IfOk, OnOk, OnErr, length, take, drop};
ghost use Rattle.std.specs.Int.{w64};
ghost use Rattle.std.specs.Int.RustNames.{FitsSigned};
ghost use Rattle.beam_values.specs.declared.element.Element.{Element};
ghost use Rattle.beam_values.specs.Spelling.{ms_spelling, pane_spelling, element_spelling};
ghost use Rattle.beam_values.specs.Times.{IsTime};
ghost use Rattle.beam_coders.specs.Answers.{Gives, GivesFront, IsBad, Read};
ghost use Rattle.beam_coders.specs.Kept.{Keeps};
ghost use Rattle.beam_coders.specs.Readable.{FitsPlaces, IsReadableElement};
ghost use Rattle.beam_coders.specs.Reading.{ms_at, timing_of, pane_at, element_at};

use crate::bits::{flip_sign, unflip_sign};
use crate::reading::{DEPTH_LIMIT, value_of};
use crate::varint::{append_varint, varint_of};
use crate::writing::append_value;
use crate::{CoderRefusal, ReadRefusal};
use beam_values::{Bytes, Element, NoMemory, PaneTag, Span, Time, Timing};
use std::alloc::Global;

#[tactic(auto, unfolding(beam_values::specs::Spelling::ms_spelling))]
fn append_ms(ms: i64, out: &mut Bytes) -> Result<(), NoMemory>
    ensures ok { OnOk result (out.new ≡ out.old ++ ms_spelling ms) }
    ensures word { FitsSigned w64 ms }
    ensures kept { Keeps out.old out.new }
{
    out.extend_from_slice(&flip_sign(ms).to_be_bytes())?;
    Ok(())
}

fn append_span(span: Span, out: &mut Bytes) -> Result<(), NoMemory>
    ensures ok { OnOk result
        (out.new ≡ (out.old ++ ms_spelling span.start) ++ ms_spelling span.end) }
    ensures start { FitsSigned w64 span.start }
    ensures end { FitsSigned w64 span.end }
    ensures ordered { span.start <ℤ span.end }
    ensures kept { Keeps out.old out.new }
{
    append_ms(span.start(), out)?;
    append_ms(span.end(), out)
}

fn append_pane(pane: PaneTag, out: &mut Bytes) -> Result<(), NoMemory>
    ensures ok { OnOk result (out.new ≡ out.old ++ pane_spelling pane) }
    ensures index { pane.index < 2 ^ 32 }
    ensures kept { Keeps out.old out.new }
{
    out.push(pane.timing.number())?;
    append_varint(pane.index as u64, out)
}

fn append_element(element: &Element, out: &mut Bytes) -> Result<(), NoMemory>
    ensures ok { OnOk result (out.new ≡ out.old ++ element_spelling element.now) }
    ensures places { OnOk result (FitsPlaces element.now) }
    ensures kept { Keeps out.old out.new }
{
    append_ms(element.time.ms(), out)?;
    append_span(element.span, out)?;
    append_pane(element.pane, out)?;
    append_value(&element.value, out)
}

/// Appends the spelling of an element, which is read again where its value's nesting is at most 256.
pub fn write_element(element: &Element, out: &mut Bytes) -> Result<(), NoMemory>
    ensures ok { OnOk result (out.new ≡ out.old ++ element_spelling element.now) }
    ensures places { OnOk result (FitsPlaces element.now) }
    ensures err { OnErr result (out.new ≡ out.old) }
{
    let before = out.len();
    let written = append_element(element, out);
    if written.is_err() {
        out.truncate(before);
    }
    written
}

#[tactic(auto, unfolding(crate::specs::Reading::ms_at))]
fn ms_of(bytes: &[u8]) -> Result<(i64, &[u8]), CoderRefusal>
    ensures { Read (λ x. (x.0, x.1.now)) result (ms_at bytes.now) }
{
    if bytes.len() < 8 {
        return Err(CoderRefusal::Short);
    }
    let (front, rest) = bytes.split_at(8);
    let bits = u64::from_be_bytes([
        front[0], front[1], front[2], front[3], front[4], front[5], front[6], front[7],
    ]);
    Ok((unflip_sign(bits), rest))
}

fn timing_of(byte: u8) -> Result<Timing, CoderRefusal>
    ensures { result ≡ timing_of byte }
{
    match byte {
        0 => Ok(Timing::Early),
        1 => Ok(Timing::OnTime),
        2 => Ok(Timing::Late),
        3 => Ok(Timing::Unknown),
        _ => Err(CoderRefusal::Range),
    }
}

#[tactic(auto, unfolding(crate::specs::Reading::pane_at))]
fn pane_of(bytes: &[u8]) -> Result<(PaneTag, &[u8]), CoderRefusal>
    ensures { Read (λ x. (x.0, x.1.now)) result (pane_at bytes.now) }
{
    let Some((byte, rest)) = bytes.split_first() else {
        return Err(CoderRefusal::Short);
    };
    let timing = timing_of(*byte)?;
    let (index, rest) = varint_of(64, rest)?;
    if index > u32::MAX as u64 {
        return Err(CoderRefusal::Range);
    }
    let index = index as u32;
    Ok((PaneTag { timing, index }, rest))
}

#[tactic(auto, unfolding(crate::specs::Reading::element_at, crate::specs::Reading::time_at, crate::specs::Reading::span_at))]
fn element_of(alloc: Global, bytes: &[u8]) -> Result<(Element, &[u8]), ReadRefusal>
    ensures { Gives (λ x. (x.0, x.1.now)) result (element_at bytes.now) }
{
    let (ms, rest) = ms_of(bytes)?;
    let Some(time) = Time::new(ms) else {
        return Err(ReadRefusal::Bad(CoderRefusal::Range));
    };
    let (start, rest) = ms_of(rest)?;
    let (end, rest) = ms_of(rest)?;
    let Some(span) = Span::new(start, end) else {
        return Err(ReadRefusal::Bad(CoderRefusal::Range));
    };
    let (pane, rest) = pane_of(rest)?;
    let (value, rest) = value_of(alloc, DEPTH_LIMIT, rest)?;
    let element = Element {
        value,
        time,
        span,
        pane,
    };
    Ok((element, rest))
}

/// The element whose spelling stands at the front of the bytes, and the length of that spelling.
pub fn read_element(alloc: Global, bytes: &[u8]) -> Result<(Element, usize), ReadRefusal>
    // What is read is spelled so.
    ensures found { IfOk result (λ x. IsReadableElement x.0
        × (x.1 ≤ length bytes.now) × (element_spelling x.0 ≡ take x.1 bytes.now)) }
    // What is spelled so is read, whatever follows it, unless there is no memory.
    ensures only { (e : Element) (rest : ListOf ℕ) → IsReadableElement e
        → bytes.now ≡ element_spelling e ++ rest → GivesFront bytes.now result (Ok (e, rest)) }
    // So `Bad` comes only where no spelling stands at the front.
    ensures bad { IsBad result → (e : Element) (rest : ListOf ℕ)
        → IsReadableElement e → bytes.now ≢ element_spelling e ++ rest }
    // Which refusal it is: the first rule that fails from the left.
    ensures exact { GivesFront bytes.now result (element_at bytes.now) }
{
    let (element, rest) = element_of(alloc, bytes)?;
    Ok((element, bytes.len() - rest.len()))
}
