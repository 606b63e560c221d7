ghost use Rattle.std.specs.Prelude.{◌≡◌};
ghost use Rattle.beam_values.specs.Spelling.{two's_complement};

/// The number without a sign that has the same 64 bits.
pub fn unsigned_bits(number: i64) -> u64
    ensures { result ≡ two's_complement number }
{
    if number >= 0 {
        number as u64
    } else {
        u64::MAX - (-(number + 1)) as u64
    }
}
