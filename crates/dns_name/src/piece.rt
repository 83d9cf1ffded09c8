//! The pieces that a name text is made of.
ghost use Rattle.std.specs.Prelude.{◌≡◌, ◌+◌, ◌<◌, ◌∷◌, length};

use enum_base::escaped_byte;

/// What stands at the front of a text: a dot between labels, a byte of a label with the number of bytes
/// that its escape takes beyond the first, or an escape that is ill-formed.
#[derive(Clone, Copy)]
pub(crate) enum Piece {
    Dot,
    Byte(u8, usize),
    Broken,
}

impl Piece {
    ghost use Rattle.dns_name.specs.Reading.{first_piece, escape_piece, more_of};

    /// The piece at the front of a text, by its first byte and those after it.
    pub fn first(byte: u8, rest: &[u8]) -> Piece
        ensures value { result ≡ first_piece (byte ∷ rest.now) }
        ensures within { more_of result < length rest.now + 1 }
    {
        match byte {
            b'.' => Piece::Dot,
            b'\\' => Piece::escape(rest),
            _ => Piece::Byte(byte, 0),
        }
    }

    // The piece that these bytes make with a backslash before them.
    fn escape(rest: &[u8]) -> Piece
        ensures value { result ≡ escape_piece rest.now }
        ensures within { more_of result < length rest.now + 1 }
    {
        match escaped_byte(rest) {
            Some((byte, more)) => Piece::Byte(byte, more),
            None => Piece::Broken,
        }
    }
}
