//! Bytes as escapes of names and character-strings.
ghost use Rattle.std.specs.Prelude.{◌≡◌, ◌+◌, ◌<◌, length, IfSome};
ghost use Rattle.enum_base.specs.Escapes.{decimal_byte, decimal_escape, decimal_of, escaped_byte};

/// A backslash and the number of the byte in three digits (RFC 1035, section 5.1). No memory.
pub fn decimal_escape(byte: u8) -> [u8; 4]
    ensures { result ≡ decimal_escape byte }
{
    [
        b'\\',
        b'0' + byte / 100,
        b'0' + byte / 10 % 10,
        b'0' + byte % 10,
    ]
}

/// The byte that a backslash and these bytes stand for, and how many of them it takes: 3 digits of a number of at most
/// 255, or 1 byte that is no digit (RFC 1035, section 5.1). `None` where they are neither. No memory.
pub fn escaped_byte(text: &[u8]) -> Option<(u8, usize)>
    ensures value { result ≡ escaped_byte text.now }
    ensures within { IfSome result (λ byte. byte.1 < length text.now + 1) }
{
    match text {
        [] => None,
        [digit, rest @ ..] if digit.is_ascii_digit() => decimal_byte(*digit, rest),
        [byte, ..] => Some((*byte, 1)),
    }
}

// The byte of the decimal number that this digit and the two first of these bytes make, and how many digits it has.
fn decimal_byte(hundreds: u8, text: &[u8]) -> Option<(u8, usize)>
    ensures value { result ≡ decimal_byte hundreds text.now }
    ensures within { IfSome result (λ byte. byte.1 < length text.now + 2) }
{
    match text {
        [tens, ones, ..] if tens.is_ascii_digit() && ones.is_ascii_digit() => {
            let byte = u8::try_from(decimal_of(hundreds, *tens, *ones)).ok()?;
            Some((byte, 3))
        }
        _ => None,
    }
}

// The number of three decimal digits.
fn decimal_of(hundreds: u8, tens: u8, ones: u8) -> u16
    ensures { result ≡ decimal_of hundreds tens ones }
{
    100 * u16::from(hundreds.saturating_sub(b'0'))
        + 10 * u16::from(tens.saturating_sub(b'0'))
        + u16::from(ones.saturating_sub(b'0'))
}
