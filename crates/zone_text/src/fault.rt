//! The fault of a text that is no zone text.
ghost use Rattle.std.specs.Prelude.{◌≡◌};
ghost use Rattle.zone_text.specs.FaultWords.{text_fault};

use enum_base::{Buffer, FaultWords};
use zone_token::TextWhy;

/// The first fault of a zone text.
#[derive(Clone, Copy, Debug, PartialEq, Eq)]
pub struct TextFault {
    /// The line on which the broken entry begins, counted from 1.
    pub line: u32,
    pub why: TextWhy,
}

impl TextFault {
    /// The line, and the name of the reason after a space.
    pub fn words(&self) -> FaultWords
        ensures { result ≡ text_fault self.now }
    {
        let mut words = Buffer::new();
        words.push_number(self.line);
        words.push(b' ');
        words.push_slice(self.why.name().as_bytes());
        words
    }
}
