ghost use Rattle.std.specs.Prelude.{◌≡◌};
ghost use Rattle.command_words.specs.Commands.{default_of, greatest_of};
ghost use Rattle.command_words.specs.Parts.{setting_named};

use beam_values::Options;

/// An option of the commands, by what it sets.
#[derive(Clone, Copy)]
pub enum Setting {
    Workers,
    Bundle,
    Chunk,
    Attempts,
}

impl Setting {
    /// The option that a word names, which begins with its two dashes.
    pub fn named(name: &str) -> Option<Setting>
        ensures { result ≡ setting_named name.now }
    {
        if name == "--workers" {
            Some(Setting::Workers)
        } else if name == "--bundle" {
            Some(Setting::Bundle)
        } else if name == "--chunk" {
            Some(Setting::Chunk)
        } else if name == "--attempts" {
            Some(Setting::Attempts)
        } else {
            None
        }
    }

    /// The greatest number that it may be set to. The least is 1.
    pub fn greatest(self) -> u64
        ensures { result ≡ greatest_of self }
    {
        match self {
            Setting::Workers => 16,
            Setting::Bundle => 1_000_000,
            Setting::Chunk => 1_099_511_627_776,
            Setting::Attempts => 1000,
        }
    }

    /// The number that it has where a command doesn't set it.
    pub fn default(self) -> u64
        ensures { result ≡ default_of self }
    {
        match self {
            Setting::Workers => u64::from(Options::DEFAULT.workers),
            Setting::Bundle => u64::from(Options::DEFAULT.bundle),
            Setting::Chunk => Options::DEFAULT.chunk,
            Setting::Attempts => u64::from(Options::DEFAULT.attempts),
        }
    }
}
