ghost use Rattle.std.specs.Prelude.{◌≡◌};
ghost use Rattle.beam_values.specs.Functions.{fixed_window};
ghost use Rattle.beam_values.specs.Strategies.{IsLength};

use beam_values::{Span, Time};

/// The one fixed window of `size` milliseconds that contains the time. It takes no memory.
pub fn fixed_window(size: i64, time: Time) -> Span
    requires { IsLength size }
    ensures { result ≡ fixed_window size time }
{
    let ms = time.ms();
    let since_start = ms.rem_euclid(size);
    let start = ms - since_start;
    Span::between(start, start + size)
}
