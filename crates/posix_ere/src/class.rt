//! The character classes of brackets.
ghost use Rattle.std.specs.Prelude.{◌≡◌, ◌==◌, length};
ghost use Rattle.posix_ere.specs.Bracket.{is_member, name_of};
ghost use Rattle.posix_ere.specs.BracketMachine.{goes_on, next_class};

// A character class of the C locale (IEEE 1003.1, Base Definitions, 7.3.1).
#[derive(Clone, Copy, Debug, PartialEq, Eq, Drop)]
pub(crate) enum Class {
    Alnum,
    Alpha,
    Blank,
    Cntrl,
    Digit,
    Graph,
    Lower,
    Print,
    Punct,
    Space,
    Upper,
    Xdigit,
}

// In the order of their names.
const CLASSES: [Class; 12] = [
    Class::Alnum,
    Class::Alpha,
    Class::Blank,
    Class::Cntrl,
    Class::Digit,
    Class::Graph,
    Class::Lower,
    Class::Print,
    Class::Punct,
    Class::Space,
    Class::Upper,
    Class::Xdigit,
];

impl Class {
    // Whether a byte is a member.
    pub(crate) fn has(self, byte: u8) -> bool
        ensures { result ≡ is_member self byte }
    {
        let digit = byte.is_ascii_digit();
        match self {
            Class::Alnum => byte.is_ascii_alphabetic() || digit,
            Class::Alpha => byte.is_ascii_alphabetic(),
            Class::Blank => byte == b' ' || byte == b'\t',
            Class::Cntrl => byte < 32 || byte == 127,
            Class::Digit => digit,
            Class::Graph => 32 < byte && byte < 127,
            Class::Lower => byte.is_ascii_lowercase(),
            Class::Print => 32 <= byte && byte <= 126,
            Class::Punct => { 32 < byte && byte < 127 && !(byte.is_ascii_alphabetic() || digit) }
            Class::Space => byte == b' ' || 9 <= byte && byte <= 13,
            Class::Upper => byte.is_ascii_uppercase(),
            Class::Xdigit => digit || (65 <= byte && byte <= 70) || (97 <= byte && byte <= 102),
        }
    }

    fn name(self) -> &'static [u8]
        ensures { result.now ≡ name_of self }
    {
        match self {
            Class::Alnum => b"alnum",
            Class::Alpha => b"alpha",
            Class::Blank => b"blank",
            Class::Cntrl => b"cntrl",
            Class::Digit => b"digit",
            Class::Graph => b"graph",
            Class::Lower => b"lower",
            Class::Print => b"print",
            Class::Punct => b"punct",
            Class::Space => b"space",
            Class::Upper => b"upper",
            Class::Xdigit => b"xdigit",
        }
    }

    // Whether the name begins with the first `read` letters of the other's and then this letter.
    fn goes_on(self, other: Class, read: usize, letter: u8) -> bool
        ensures { result ≡ goes_on other read letter self }
    {
        let name = self.name();
        read < name.len() && name[read] == letter && name.get(..read) == other.name().get(..read)
    }

    // The first class whose name begins with the first `read` letters of this one's and then this letter.
    pub(crate) fn next(self, read: u8, letter: u8) -> Option<Class>
        ensures { result ≡ next_class self read letter }
    {
        CLASSES
            .iter()
            .copied()
            .find(|class| class.goes_on(self, read as usize, letter))
    }

    // Whether the name has this many letters.
    pub(crate) fn is_whole(self, read: u8) -> bool
        ensures { result ≡ (read == length (name_of self)) }
    {
        read as usize == self.name().len()
    }
}
