//! Numbers in decimal digits.
ghost use Rattle.std.specs.Prelude.{◌≡◌, ◌≤◌, ◌+◌, ◌++◌, ◌^◌, min, IfOk, OnOk, OnErr, decimal};
ghost use Rattle.enum_base.specs.Decimal.{decimal_value, first_non_digit, number_up_to};

use crate::{Buffer, Bytes, MemoryFault};

// More than any number that is asked for.
const CAP: u64 = 1 << 32;

/// Why a text is no number.
#[derive(Clone, Copy, Debug, PartialEq, Eq)]
pub enum NumFault {
    /// There is no byte.
    Empty,
    /// The first byte that is no digit is at this place, counted from 0.
    NotDigit { at: usize },
    /// The number is too large for its type.
    TooLarge,
}

/// Reads decimal digits, leading zeros among them, as a number of at most 65,535.
pub fn read_u16(text: &[u8]) -> Result<u16, NumFault>
    ensures { result ≡ number_up_to 65535 text.now }
{
    let number = read_up_to(u32::from(u16::MAX), text)?;
    Ok(number as u16)
}

/// Reads decimal digits, leading zeros among them, as a number of at most 4,294,967,295.
pub fn read_u32(text: &[u8]) -> Result<u32, NumFault>
    ensures { result ≡ number_up_to 4_294_967_295 text.now }
{
    read_up_to(u32::MAX, text)
}

// The number, where it is at most `most`.
fn read_up_to(most: u32, text: &[u8]) -> Result<u32, NumFault>
    ensures value { result ≡ number_up_to most text.now }
    ensures within { IfOk result (λ number. number ≤ most) }
{
    if text.is_empty() {
        return Err(NumFault::Empty);
    }
    if let Some(at) = first_non_digit(text) {
        return Err(NumFault::NotDigit { at });
    }
    let value = capped_value(text);
    if value <= u64::from(most) {
        Ok(value as u32)
    } else {
        Err(NumFault::TooLarge)
    }
}

fn first_non_digit(text: &[u8]) -> Option<usize>
    ensures { result ≡ first_non_digit text.now }
{
    text.iter().position(|b| !b.is_ascii_digit())
}

// The value of the digits, or 2^32 where it is more.
fn capped_value(digits: &[u8]) -> u64
    ensures { result ≡ min (decimal_value digits.now) (2 ^ 32) }
{
    let mut value = 0;
    for digit in digits {
        let next = 10 * value + u64::from(digit.saturating_sub(b'0'));
        value = next.min(CAP);
    }
    value
}

/// Appends the front and the number in decimal digits, or nothing.
pub fn push_number(front: &[u8], number: usize, out: &mut Bytes) -> Result<(), MemoryFault>
    ensures ok { OnOk result (out.new ≡ out.old ++ (front.now ++ decimal number)) }
    ensures err { OnErr result (out.new ≡ out.old) }
{
    let mut digits = Buffer::<20>::new();
    digits.push_number(number);
    out.push_both(front, digits.as_slice())
}
