ghost use Rattle.std.specs.Prelude.{◌≡◌};
ghost use Rattle.beam_values.specs.Spelling.{sign_flipped};
ghost use Rattle.beam_coders.specs.Reading.{signed, unflipped};

const HALF: u64 = 0x8000_0000_0000_0000;

/// The signed number with these 64 bits.
pub fn signed_bits(bits: u64) -> i64
    ensures { result ≡ signed bits }
{
    if bits < HALF {
        bits as i64
    } else {
        -((u64::MAX - bits) as i64) - 1
    }
}

/// 2 ^ 63 more than the number.
pub fn flip_sign(ms: i64) -> u64
    ensures { result ≡ sign_flipped ms }
{
    if ms >= 0 {
        HALF + ms as u64
    } else {
        HALF - 1 - (-(ms + 1)) as u64
    }
}

/// The number that is 2 ^ 63 less.
pub fn unflip_sign(bits: u64) -> i64
    ensures { result ≡ unflipped bits }
{
    if bits < HALF {
        -((HALF - 1 - bits) as i64) - 1
    } else {
        (bits - HALF) as i64
    }
}
