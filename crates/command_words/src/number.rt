ghost use Rattle.std.specs.Prelude.{◌≡◌, ◌≤◌, IfSome};
ghost use Rattle.command_words.specs.Numbers.{number_within};

/// The number that a word is, if it lies in these bounds.
pub fn number_within(word: &str, low: u64, high: u64) -> Option<u64>
    ensures exact { result ≡ number_within low high word.now }
    ensures within { IfSome result (λ number. (low ≤ number) × (number ≤ high)) }
{
    match word.parse::<u64>() {
        Ok(number) if low <= number && number <= high => Some(number),
        _ => None,
    }
}
