ghost use Rattle.std.specs.Prelude.{◌≡◌, ◌<◌, ◌∷◌, [], length, MatchOption};
ghost use Rattle.schedule_words.specs.Schedules.{lines_of};

use memchr::memchr;

const LF: u8 = b'\n';

/// The first line of a text, without its LF, and the text after it. There is none where the text is empty.
pub fn next_line(text: &[u8]) -> Option<(&[u8], &[u8])>
    ensures { MatchOption result (lines_of text.now ≡ [])
        (λ next. (lines_of text.now ≡ next.0.now ∷ lines_of next.1.now)
        × (length next.1.now < length text.now)) }
{
    if text.is_empty() {
        return None;
    }
    match memchr(LF, text) {
        Some(at) => Some((text.split_at(at).0, text.split_at(at + 1).1)),
        None => Some((text, &[])),
    }
}
