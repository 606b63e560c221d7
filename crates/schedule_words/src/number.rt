ghost use Rattle.std.specs.Prelude.{◌≡◌, ◌≤◌};
ghost use Rattle.schedule_words.specs.Schedules.{number_of};

/// The number that decimal digits write, of which there are one to `most`.
#[tactic(auto, using(beam_lines::proofs::Digits::below_next_power))]
pub fn number_of(word: &[u8], most: usize) -> Option<u32>
    requires { most ≤ 7 }
    ensures { result ≡ number_of most word.now }
{
    if word.is_empty() || word.len() > most {
        return None;
    }
    let mut value = 0u32;
    for digit in word {
        if !digit.is_ascii_digit() {
            return None;
        }
        value = 10 * value + u32::from(*digit - b'0');
    }
    Some(value)
}
