ghost use Rattle.std.specs.Prelude.{◌≡◌};
ghost use Rattle.command_words.specs.Commands.{command_name};

/// The commands, but for help.
#[derive(Clone, Copy)]
pub enum CommandName {
    Panes,
    Run,
    Replay,
    Make,
    Drill,
    Combine,
}

impl CommandName {
    /// The command of this name.
    pub fn named(name: &str) -> Option<CommandName>
        ensures { result ≡ command_name name.now }
    {
        if name == "panes" {
            Some(CommandName::Panes)
        } else if name == "run" {
            Some(CommandName::Run)
        } else if name == "replay" {
            Some(CommandName::Replay)
        } else if name == "make" {
            Some(CommandName::Make)
        } else if name == "drill" {
            Some(CommandName::Drill)
        } else if name == "combine" {
            Some(CommandName::Combine)
        } else {
            None
        }
    }
}
