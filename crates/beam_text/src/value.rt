ghost use Rattle.std.specs.Prelude.{◌≡◌, ◌+◌, ◌++◌, ◌∷◌, [], ◌<◌, ◌≤◌, length, slice_index, take, true};
ghost use Rattle.std.specs.Prelude.{OnOk, OnErr, map};
ghost use Rattle.std.specs.List.{All, flat_map};
ghost use Rattle.beam_text.specs.Parts.{IsPlain};
ghost use Rattle.beam_values.specs.Texts.{value_text, joined, is_escaped, blob_text, byte_text};
ghost use Rattle.beam_values.specs.Texts.{hex_digit};

use beam_values::{List, NoMemory, Value};
use itoa::Buffer;

/// Appends the text of a value.
pub fn push_value(value: &Value, out: &mut List<u8>) -> Result<(), NoMemory>
    ensures ok { OnOk result (out.new ≡ out.old ++ value_text value.now) }
    ensures err { OnErr result (out.new ≡ out.old) }
{
    let before = out.len();
    let appended = append_value(value, out);
    if appended.is_err() {
        out.truncate(before);
    }
    appended
}

/// Appends the text of a byte string, quotes included.
pub fn push_blob(bytes: &[u8], out: &mut List<u8>) -> Result<(), NoMemory>
    ensures ok { OnOk result (out.new ≡ out.old ++ blob_text bytes.now) }
    ensures err { OnErr result (out.new ≡ out.old) }
{
    let before = out.len();
    let appended = append_blob(bytes, out);
    if appended.is_err() {
        out.truncate(before);
    }
    appended
}

// After a refusal a part of the text may stand at the end, here and in all that is called from here.
#[cycle(texts)]
fn append_value(value: &Value, out: &mut List<u8>) -> Result<(), NoMemory>
    ensures ok { OnOk result (out.new ≡ out.old ++ value_text value.now) }
    ensures err { OnErr result (take (length out.old) out.new ≡ out.old) }
{
    match value {
        Value::Null => out.extend_from_slice(b"null"),
        Value::Int(n) => out.extend_from_slice(Buffer::new().format(*n).as_bytes()),
        Value::Blob(bytes) => append_blob(bytes.as_slice(), out),
        Value::Pair(key, part) => {
            out.push(b'(')?;
            append_value(key.get(), out)?;
            out.push(b',')?;
            append_value(part.get(), out)?;
            out.push(b')')
        }
        Value::Seq(items) => {
            out.push(b'[')?;
            append_items(items.as_slice(), out)?;
            out.push(b']')
        }
    }
}

#[cycle(texts)]
fn append_items(items: &[Value], out: &mut List<u8>) -> Result<(), NoMemory>
    ensures ok { OnOk result (out.new ≡ out.old ++ joined (map value_text items.now)) }
    ensures err { OnErr result (take (length out.old) out.new ≡ out.old) }
{
    let Some((first, others)) = items.split_first() else {
        return Ok(());
    };
    append_item(first, out)?;
    for item in others {
        out.push(b',')?;
        append_item(item, out)?;
    }
    Ok(())
}

// Most items are byte strings, which need no call of their own.
#[cycle(texts)]
#[inline(always)]
fn append_item(item: &Value, out: &mut List<u8>) -> Result<(), NoMemory>
    ensures ok { OnOk result (out.new ≡ out.old ++ value_text item.now) }
    ensures err { OnErr result (take (length out.old) out.new ≡ out.old) }
{
    match item {
        Value::Blob(bytes) => append_blob(bytes.as_slice(), out),
        _ => append_value(item, out),
    }
}

#[inline(always)]
fn append_blob(bytes: &[u8], out: &mut List<u8>) -> Result<(), NoMemory>
    ensures ok { OnOk result (out.new ≡ out.old ++ blob_text bytes.now) }
    ensures err { OnErr result (take (length out.old) out.new ≡ out.old) }
{
    out.push(b'"')?;
    append_bytes(bytes, out)?;
    out.push(b'"')
}

#[inline(always)]
#[tactic(auto, using(crate::proofs::PlainBytes::plain_same))]
fn append_bytes(bytes: &[u8], out: &mut List<u8>) -> Result<(), NoMemory>
    ensures ok { OnOk result (out.new ≡ out.old ++ flat_map byte_text bytes.now) }
    ensures err { OnErr result (take (length out.old) out.new ≡ out.old) }
{
    if are_plain(bytes) {
        out.extend_from_slice(bytes)
    } else {
        append_runs(bytes, out)
    }
}

// Whether all bytes are printed as they are. Of a short string the ends are looked at, since for a length
// that is known many bytes at once are.
#[inline(always)]
fn are_plain(bytes: &[u8]) -> bool
    ensures { result ≡ true → All IsPlain bytes.now }
{
    match bytes.len() {
        4..=8 => ends_are_plain(bytes, 4),
        9..=16 => ends_are_plain(bytes, 8),
        17..=32 => ends_are_plain(bytes, 16),
        _ => each_is_plain(bytes),
    }
}

// The first bytes and the last, this many of each, are the whole string: some may be looked at twice.
#[inline(always)]
fn ends_are_plain(bytes: &[u8], count: usize) -> bool
    requires long { count ≤ length bytes.now }
    requires short { length bytes.now ≤ count + count }
    ensures { result ≡ true → All IsPlain bytes.now }
{
    let first = bytes.split_at(count).0;
    let last = bytes.split_at(bytes.len() - count).1;
    each_is_plain(first) & each_is_plain(last)
}

// Doesn't stop early, so that many bytes are looked at at once.
#[inline(always)]
fn each_is_plain(bytes: &[u8]) -> bool
    ensures { result ≡ true → All IsPlain bytes.now }
{
    let mut any = false;
    for byte in bytes {
        any |= is_escaped(*byte);
    }
    !any
}

// Runs of plain bytes are appended whole. It stands apart, since few strings need it.
#[cold]
#[inline(never)]
fn append_runs(bytes: &[u8], out: &mut List<u8>) -> Result<(), NoMemory>
    ensures ok { OnOk result (out.new ≡ out.old ++ flat_map byte_text bytes.now) }
    ensures err { OnErr result (take (length out.old) out.new ≡ out.old) }
{
    let mut rest = bytes;
    while !rest.is_empty() {
        let (plain, others) = rest.split_at(plain_len(rest));
        out.extend_from_slice(plain)?;
        rest = others;
        if let Some((byte, after)) = others.split_first() {
            push_escaped(*byte, out)?;
            rest = after;
        }
    }
    Ok(())
}

// How many bytes are printed as they are, up to the first that isn't.
fn plain_len(bytes: &[u8]) -> usize
    ensures within { result ≤ length bytes.now }
    ensures plain { flat_map byte_text (take result bytes.now) ≡ take result bytes.now }
    ensures next { result < length bytes.now → is_escaped (slice_index bytes.now result) ≡ true }
{
    for (i, byte) in bytes.iter().enumerate() {
        if is_escaped(*byte) {
            return i;
        }
    }
    bytes.len()
}

// Asked of each byte of a text, so it takes no branch.
fn is_escaped(byte: u8) -> bool
    ensures { result ≡ is_escaped byte }
{
    (byte == b'"') | (byte == b'\\') | (byte < b' ') | (byte > b'~')
}

/// Appends a byte that isn't printed as it is: a quote or a backslash, or one outside of the printable ASCII
/// bytes, as LF by `\n` and the byte 7 by `\x07`.
pub fn push_escaped(byte: u8, out: &mut List<u8>) -> Result<(), NoMemory>
    requires { is_escaped byte ≡ true }
    ensures ok { OnOk result (out.new ≡ out.old ++ byte_text byte) }
    ensures err { OnErr result (out.new ≡ out.old) }
{
    match byte {
        b'"' | b'\\' => out.extend_from_slice(&[b'\\', byte]),
        b'\n' => out.extend_from_slice(b"\\n"),
        b'\r' => out.extend_from_slice(b"\\r"),
        b'\t' => out.extend_from_slice(b"\\t"),
        _ => out.extend_from_slice(&[b'\\', b'x', hex_digit(byte / 16), hex_digit(byte % 16)]),
    }
}

fn hex_digit(n: u8) -> u8
    requires { n < 16 }
    ensures { result ≡ hex_digit n }
{
    if n < 10 { b'0' + n } else { b'a' + (n - 10) }
}
