//! Options of commands.
ghost use Rattle.std.specs.Prelude.{◌≡◌};
ghost use Rattle.request_words.specs.Rows.{most_for, option_word};

use crate::request::AppName;

/// An option, whose value is the word after it.
#[derive(Clone, Copy, Debug, PartialEq, Eq)]
pub(crate) enum OptionName {
    /// `--want LIST`: which services are wanted.
    Want,
    /// `--apex NAME`: a domain that numbers stand under.
    Apex,
    /// `--zones FILE`: a zone file.
    Zones,
}

impl OptionName {
    /// The word that it is.
    pub(crate) fn word(self) -> &'static [u8]
        ensures { result.now ≡ option_word self }
    {
        match self {
            OptionName::Want => b"--want",
            OptionName::Apex => b"--apex",
            OptionName::Zones => b"--zones",
        }
    }
}

/// An option of a command, and how often it may stand; one of ENUM alone may not stand with another application.
#[derive(Clone, Copy, Debug)]
pub(crate) struct Choice {
    pub(crate) option: OptionName,
    pub(crate) least: usize,
    pub(crate) most: usize,
    pub(crate) enum_alone: bool,
}

impl Choice {
    /// How often it may stand at most with an application.
    pub(crate) fn most_for(&self, app: AppName) -> usize
        ensures { result ≡ most_for app self.now }
    {
        match app {
            AppName::Enum => self.most,
            AppName::Snaptr | AppName::Unaptr => { if self.enum_alone { 0 } else { self.most } }
        }
    }
}
