//! What a byte outside brackets, intervals and escapes is.
ghost use Rattle.std.specs.Prelude.{◌≡◌};
ghost use Rattle.posix_ere.specs.Machine.{sign_of};

use crate::why::is_printable;

// What a byte outside brackets, intervals and escapes is.
#[derive(Clone, Copy, Debug, PartialEq, Eq, Drop)]
pub(crate) enum Sign {
    Open,
    Close,
    Bar,
    Star,
    Plus,
    Question,
    Brace,
    Bracket,
    Escape,
    Dot,
    Circumflex,
    Dollar,
    Ordinary,
    Outside,
}

impl Sign {
    pub(crate) fn of(byte: u8) -> Sign
        ensures { result ≡ sign_of byte }
    {
        match byte {
            b'(' => Sign::Open,
            b')' => Sign::Close,
            b'|' => Sign::Bar,
            b'*' => Sign::Star,
            b'+' => Sign::Plus,
            b'?' => Sign::Question,
            b'{' => Sign::Brace,
            b'[' => Sign::Bracket,
            b'\\' => Sign::Escape,
            b'.' => Sign::Dot,
            b'^' => Sign::Circumflex,
            b'$' => Sign::Dollar,
            _ => if is_printable(byte) {
                Sign::Ordinary
            } else {
                Sign::Outside
            },
        }
    }
}
