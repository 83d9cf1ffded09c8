//! The bytes of tags, which are all that differs between the tags of ENUM and of S-NAPTR.
ghost use Rattle.std.specs.Prelude.{◌≡◌};
ghost use Rattle.service_field.specs.Tags.{begins_tag, is_first_byte, is_tag_byte};

/// Whose tags they are.
#[derive(Clone, Copy)]
pub(crate) enum Alphabet {
    /// Tags of ENUM: letters, digits and `-` (RFC 6116, section 3.4.3).
    Enum,
    /// Tags of S-NAPTR: a letter, and then letters, digits, `+`, `-` and `.` (RFC 3958, section 6.5).
    Snaptr,
}

impl Alphabet {
    /// Whether the byte may stand in a tag.
    pub(crate) fn is_tag_byte(self, b: u8) -> bool
        ensures { result ≡ is_tag_byte self b }
    {
        match self {
            Alphabet::Enum => b.is_ascii_alphanumeric() || b == b'-',
            Alphabet::Snaptr => b.is_ascii_alphanumeric() || b == b'+' || b == b'-' || b == b'.',
        }
    }

    /// Whether a tag may begin where the text begins.
    pub(crate) fn begins_tag(self, text: &[u8]) -> bool
        ensures { result ≡ begins_tag self text.now }
    {
        match text {
            [b, ..] => self.is_first_byte(*b),
            [] => false,
        }
    }

    fn is_first_byte(self, b: u8) -> bool
        ensures { result ≡ is_first_byte self b }
    {
        match self {
            Alphabet::Enum => self.is_tag_byte(b),
            Alphabet::Snaptr => b.is_ascii_alphabetic(),
        }
    }
}
