ghost use Rattle.std.specs.Prelude.{◌≡◌};
ghost use Rattle.beam_model.specs.Functions.{second_arg};

use beam_values::Args;

pub(crate) fn second_argument(args: &Args) -> u64
    ensures { result ≡ second_arg args.now }
{
    match args {
        Args::Two(_, second) => *second,
        _ => 0,
    }
}
