ghost use Rattle.std.specs.Prelude.{◌≡◌, ◌+◌, ◌-◌, ◌<◌, ◌≤◌, ℕ, true, false, drop, length, min, IfNone, IfSome};
ghost use Rattle.std.specs.Prelude.{OnSome};
ghost use Rattle.std.specs.List.{list_any};
ghost use Rattle.beam_values.specs.Lines.{is_line_feed, starts_line, line_len, line_at, next_start};
ghost use Rattle.beam_values.specs.declared.plan.SourceKind.TheVariants as kinds;
ghost use Rattle.dofn_traits.specs.Calls.{is_cut_short};

use beam_lines::{first_line, starts_line};
use memchr::memrchr;

/// What a file has from a position on, up to the end of the line there.
#[derive(Clone, Copy)]
pub(crate) struct SeenLine<'a> {
    /// Whether the line starts at the position.
    pub(crate) starts: bool,
    /// Without its end.
    pub(crate) text: &'a [u8],
    /// The position after this one.
    pub(crate) next: u64,
}

/// The line at the position `p` of a file, in bytes from `base` on; none where they end before it does.
pub(crate) fn seen_line(bytes: &[u8], base: u64, len: u64, p: u64) -> Option<SeenLine<'_>>
    requires from_base { base ≤ p }
    requires reached { p ≤ base + length bytes.now }
    requires within { base + length bytes.now ≤ len }
    ensures cut { IfNone result (is_cut_short kinds.Lines bytes.now base len p ≡ true) }
    ensures whole { OnSome result (is_cut_short kinds.Lines bytes.now base len p ≡ false) }
    ensures starts { IfSome result (λ line. line.starts ≡ starts_line bytes.now (p - base)) }
    ensures text { IfSome result (λ line. line.text.now ≡ line_at bytes.now (p - base)) }
    ensures next { IfSome result (λ line. line.next ≡ base + next_start bytes.now (p - base)) }
{
    let at = (p - base) as usize;
    let rest = bytes.split_at(at).1;
    let line = first_line(rest);
    if base + (bytes.len() as u64) < len && !is_ended(rest, line.next) {
        return None;
    }
    Some(SeenLine {
        starts: starts_line(bytes, at),
        text: line.text,
        next: p + line.next as u64,
    })
}

// Whether an LF ends the line that `rest` begins with, where the next one would start at `next`.
fn is_ended(rest: &[u8], next: usize) -> bool
    requires { next ≡ min (line_len rest.now + 1) (length rest.now) }
    ensures { result ≡ list_any is_line_feed rest.now }
{
    next > 0 && starts_line(rest, next)
}

/// How many bytes stand up to the last LF, that one counted: the lines that these begin with have their ends there.
pub(crate) fn ended(bytes: &[u8]) -> usize
    ensures within { result ≤ length bytes.now }
    ensures whole { (k : ℕ) → k < result → list_any is_line_feed (drop k bytes.now) ≡ true }
{
    match memrchr(b'\n', bytes) {
        Some(at) => at + 1,
        None => 0,
    }
}
