ghost use Rattle.std.specs.Prelude.{◌≡◌};
ghost use Rattle.command_words.specs.HelpText.{help_text};

const HELP: &[u8] = b"\
beam_run panes FILE SIZE [OPTIONS]\n\
beam_run run PLAN [OPTIONS]\n\
beam_run replay PLAN SCHEDULE [OPTIONS]\n\
beam_run make COUNT NUMBER\n\
beam_run drill COUNT NUMBER [OPTIONS]\n\
beam_run combine PLAN [OPTIONS]\n\
OPTIONS: --workers N --bundle N --chunk N --attempts N\n";

/// What help prints, whole: a line for each command, and one for their options.
pub fn help_text() -> &'static [u8]
    ensures { result.now ≡ help_text }
{
    HELP
}
