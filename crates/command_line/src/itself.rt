//! What words ask of the program itself.
ghost use Rattle.std.specs.Prelude.{◌≡◌};
ghost use Rattle.request_words.specs.Words.{texts_of};
ghost use Rattle.command_line.specs.Asked.{asked_of_itself};

use crate::help::{HELP, VERSION};

/// What the program tells of itself.
#[derive(Clone, Copy)]
pub(crate) enum Itself {
    Help,
    Version,
}

impl Itself {
    /// The text of it.
    pub(crate) fn text(self) -> &'static str {
        match self {
            Itself::Help => HELP,
            Itself::Version => VERSION,
        }
    }
}

/// What the words ask of the program itself: one word alone does.
pub(crate) fn asked_of_itself(words: &[String]) -> Option<Itself>
    ensures { result ≡ asked_of_itself (texts_of words.now) }
{
    match words {
        [word] if word.as_bytes() == b"--help".as_slice() => Some(Itself::Help),
        [word] if word.as_bytes() == b"--version".as_slice() => Some(Itself::Version),
        _ => None,
    }
}
