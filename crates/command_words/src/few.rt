ghost use Rattle.std.specs.Prelude.{◌≡◌};
ghost use Rattle.command_words.specs.Few.{with_text};
ghost use Rattle.command_words.specs.Shown.{shown_few};

/// Up to two texts, or that there are more: no command has more than two positional words, and no
/// option more than one value.
#[derive(Clone, Copy)]
pub enum Few<'a> {
    Nothing,
    One(&'a str),
    Two(&'a str, &'a str),
    More,
}

impl<'a> Few<'a> {
    /// The same with one more text after them.
    pub fn with(self, text: &'a str) -> Few<'a>
        ensures { shown_few result ≡ with_text (shown_few self.entry) text.now }
    {
        match self {
            Few::Nothing => Few::One(text),
            Few::One(first) => Few::Two(first, text),
            Few::Two(_, _) | Few::More => Few::More,
        }
    }
}
