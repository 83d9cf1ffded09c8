//! The table of commands.
ghost use Rattle.std.specs.Prelude.{◌≡◌, map};
ghost use Rattle.std.specs.List.{position};
ghost use Rattle.request_words.specs.Reading.{row_in};
ghost use Rattle.request_words.specs.Rows.{is_app, size_of, table};

use crate::option::{Choice, OptionName};

/// What a row is the command of.
#[derive(Clone, Copy, Debug, PartialEq, Eq)]
pub(crate) enum Command {
    Resolve,
    Show,
}

/// What a word after that of the command is.
#[derive(Clone, Copy, Debug, PartialEq, Eq)]
pub(crate) enum Argument {
    /// The name of an application.
    App,
    /// Any text.
    Text,
}

impl Argument {
    fn is_app(self) -> bool
        ensures { result ≡ is_app self }
    {
        match self {
            Argument::App => true,
            Argument::Text => false,
        }
    }
}

/// A row of the table: the word of a command, what follows it, and its options.
#[derive(Clone, Copy, Debug)]
pub(crate) struct Row {
    pub(crate) command: Command,
    pub(crate) word: &'static [u8],
    pub(crate) arguments: &'static [Argument],
    pub(crate) choices: &'static [Choice],
}

impl Row {
    /// How many words come before the options.
    pub(crate) fn size(&self) -> usize
        ensures { result ≡ size_of (row_in self.now) }
    {
        self.arguments.len() + 1
    }

    /// Which argument names the application, from 0.
    pub(crate) fn app_place(&self) -> Option<usize>
        ensures { result ≡ position is_app self.now.arguments.now }
    {
        self.arguments.iter().position(|argument| argument.is_app())
    }
}

// At most one wanted list, at most 8 apexes, and 1 to 64 files.
const WANT: Choice = Choice {
    option: OptionName::Want,
    least: 0,
    most: 1,
    enum_alone: false,
};

const APEXES: Choice = Choice {
    option: OptionName::Apex,
    least: 0,
    most: 8,
    enum_alone: true,
};

const FILES: Choice = Choice {
    option: OptionName::Zones,
    least: 1,
    most: 64,
    enum_alone: false,
};

/// The rows.
pub(crate) fn table() -> &'static [Row]
    ensures { map row_in result.now ≡ table }
{
    &[
        Row {
            command: Command::Resolve,
            word: b"resolve",
            arguments: &[Argument::App, Argument::Text],
            choices: &[WANT, APEXES, FILES],
        },
        Row {
            command: Command::Show,
            word: b"show",
            arguments: &[],
            choices: &[],
        },
    ]
}
