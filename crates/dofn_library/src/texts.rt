ghost use Rattle.std.specs.Prelude.{◌≡◌, ◌<◌, [], ◌∷◌, length, not, position, slice_get};
ghost use Rattle.std.specs.Prelude.{if◌then◌else◌, IfSome, MatchOption};
ghost use Rattle.std.specs.Option.{option_copied};
ghost use Rattle.std.specs.Char.{is_ascii_alphanumeric};
ghost use Rattle.beam_values.specs.Functions.{digits_value};
ghost use Rattle.beam_model.specs.Texts.{words, fields, begins_with, is_int_digits, int_of};

use beam_lines::key_field;

const MOST_DIGITS: usize = 19;

/// The field of this number, counted from 0. Fields have a TAB between them.
pub fn field(text: &[u8], number: usize) -> Option<&[u8]>
    ensures { option_copied result ≡ slice_get (fields text.now) number }
{
    let mut rest = text;
    for _passed in 0..number {
        let (front, after) = key_field(rest);
        if front.len() == rest.len() {
            return None;
        }
        rest = after;
    }
    Some(key_field(rest).0)
}

/// Whether the text begins with another.
pub fn begins_with(text: &[u8], prefix: &[u8]) -> bool
    ensures { result ≡ begins_with prefix.now text.now }
{
    text.starts_with(prefix)
}

/// The first run of ASCII letters and digits, and the text after it.
pub fn first_word(text: &[u8]) -> Option<(&[u8], &[u8])>
    ensures found { MatchOption result (words text.now ≡ [])
        (λ found. words text.now ≡ found.0.now ∷ words found.1.now) }
    ensures shorter { IfSome result (λ found. length found.1.now < length text.now) }
{
    let start = word_start(text)?;
    let rest = text.split_at(start).1;
    let len = word_end(rest).unwrap_or(rest.len());
    Some(rest.split_at(len))
}

fn word_start(text: &[u8]) -> Option<usize>
    ensures { result ≡ position is_ascii_alphanumeric text.now }
{
    text.iter().position(|byte| byte.is_ascii_alphanumeric())
}

fn word_end(text: &[u8]) -> Option<usize>
    ensures { result ≡ position (λ byte. not (is_ascii_alphanumeric byte)) text.now }
{
    text.iter().position(|byte| !byte.is_ascii_alphanumeric())
}

/// An optional `-` and 1 to 19 digits, whose number 64 bits hold.
pub fn int_of(text: &[u8]) -> Option<i64>
    ensures { result ≡ int_of text.now }
{
    match text.split_first() {
        Some((b'-', digits)) => 0i64.checked_sub_unsigned(magnitude_of(digits)?),
        _ => i64::try_from(magnitude_of(text)?).ok(),
    }
}

// The number that 1 to 19 digits write.
#[tactic(auto, using(crate::proofs::Digits::below_next_power, crate::proofs::Digits::below_eighteen))]
fn magnitude_of(digits: &[u8]) -> Option<u64>
    ensures { result ≡ (if is_int_digits digits.now then Some (digits_value digits.now) else None) }
{
    if digits.is_empty() || digits.len() > MOST_DIGITS {
        return None;
    }
    let mut value = 0u64;
    for digit in digits {
        if !digit.is_ascii_digit() {
            return None;
        }
        value = 10 * value + u64::from(*digit - b'0');
    }
    Some(value)
}
