//! Where the bytes of a zone text stand in their entries.
ghost use Rattle.std.specs.Prelude.{◌≡◌, ◌<◌, ◌≤◌, length, position, IfSome};
ghost use Rattle.zone_token.specs.Entries.{turns};
ghost use Rattle.zone_token.specs.Bytes.{size_until};

/// A part of an entry.
#[derive(Clone, Copy, Debug, PartialEq, Eq)]
pub enum Part {
    /// Outside quotes and comments.
    Plain,
    /// After a backslash outside quotes and comments.
    Escaped,
    /// Inside quotes.
    Quoted,
    /// After a backslash inside quotes.
    QuotedEscaped,
    /// In a comment.
    Comment,
}

/// Where a byte stands in its entry.
#[derive(Clone, Copy, Debug, PartialEq, Eq)]
pub struct Spot {
    pub part: Part,
    /// Whether parentheses are open.
    pub inside: bool,
}

impl Part {
    ghost use Rattle.zone_token.specs.Entries.{part_after, unescaped, inside_after, is_escaped, is_quoted};

    // The part after the byte.
    fn after(self, byte: u8) -> Part
        ensures { result ≡ part_after self byte }
    {
        match (self, byte) {
            (Part::Plain, b'"') => Part::Quoted,
            (Part::Plain, b';') => Part::Comment,
            (Part::Plain, b'\\') => Part::Escaped,
            (Part::Plain | Part::Escaped, _) => Part::Plain,
            (Part::Quoted, b'"') => Part::Plain,
            (Part::Quoted, b'\\') => Part::QuotedEscaped,
            (Part::Quoted | Part::QuotedEscaped, _) => Part::Quoted,
            (Part::Comment, b'\n') => Part::Plain,
            (Part::Comment, _) => Part::Comment,
        }
    }

    // The part after a byte that does not turn.
    fn unescaped(self) -> Part
        ensures { result ≡ unescaped self }
    {
        match self {
            Part::Plain | Part::Escaped => Part::Plain,
            Part::Quoted | Part::QuotedEscaped => Part::Quoted,
            Part::Comment => Part::Comment,
        }
    }

    // Whether parentheses are open after the byte.
    fn inside_after(self, inside: bool, byte: u8) -> bool
        ensures { result ≡ inside_after self inside byte }
    {
        match (self, byte) {
            (Part::Plain, b'(') => true,
            (Part::Plain, b')') => false,
            _ => inside,
        }
    }

    // Whether it stands after a backslash.
    fn is_escaped(self) -> bool
        ensures { result ≡ is_escaped self }
    {
        matches!(self, Part::Escaped | Part::QuotedEscaped)
    }

    // Whether it stands inside quotes.
    fn is_quoted(self) -> bool
        ensures { result ≡ is_quoted self }
    {
        matches!(self, Part::Quoted | Part::QuotedEscaped)
    }
}

// Whether another part may begin after the byte where none is escaped, or parentheses open or close.
fn turns(byte: u8) -> bool
    ensures { result ≡ turns byte }
{
    // One arm a byte: the compiler makes one test of bits of them.
    match byte {
        b'\n' => true,
        b'"' => true,
        b';' => true,
        b'(' => true,
        b')' => true,
        b'\\' => true,
        _ => false,
    }
}

// The place of the first such byte.
fn first_turn(text: &[u8]) -> Option<usize>
    ensures value { result ≡ position turns text.now }
    ensures within { IfSome result (λ at. at < length text.now) }
{
    text.iter().position(|byte| turns(*byte))
}

// How many bytes stand before the first such byte.
fn size_until_turn(text: &[u8]) -> usize
    ensures value { result ≡ size_until turns text.now }
    ensures within { result ≤ length text.now }
{
    first_turn(text).unwrap_or(text.len())
}

impl Spot {
    ghost use Rattle.zone_token.specs.Entries.{beginning, after, ends_entry, still_size};

    /// Where an entry begins.
    pub fn beginning() -> Spot
        ensures { result ≡ beginning }
    {
        Spot {
            part: Part::Plain,
            inside: false,
        }
    }

    /// The spot after the byte.
    pub fn after(self, byte: u8) -> Spot
        ensures { result ≡ after self byte }
    {
        if turns(byte) {
            Spot {
                part: self.part.after(byte),
                inside: self.part.inside_after(self.inside, byte),
            }
        } else {
            Spot {
                part: self.part.unescaped(),
                inside: self.inside,
            }
        }
    }

    /// How many bytes at the front of the text leave the spot as it is, as far as no other byte can change it.
    pub fn still_size(self, text: &[u8]) -> usize
        ensures value { result ≡ still_size self text.now }
        ensures within { result ≤ length text.now }
    {
        if self.part.is_escaped() {
            0
        } else {
            size_until_turn(text)
        }
    }

    /// Whether the byte ends its entry here.
    pub fn is_end(self, byte: u8) -> bool
        ensures { result ≡ ends_entry self byte }
    {
        byte == b'\n' && (self.part.is_quoted() || !self.inside)
    }
}
