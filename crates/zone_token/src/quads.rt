//! Dotted quads.
ghost use Rattle.std.specs.Prelude.{◌≡◌};
ghost use Rattle.zone_token.specs.Addresses.{octet_of, quad_of};

use crate::cuts::cut;
use enum_base::read_u16;

// A decimal number of at most 255.
#[tactic(auto, unfolding(crate::specs::Addresses::octet_of))]
fn read_octet(text: &[u8]) -> Option<u8>
    ensures { result ≡ octet_of text.now }
{
    let number = read_u16(text).ok()?;
    if number <= 255 {
        Some(number as u8)
    } else {
        None
    }
}

/// The four bytes of a dotted quad.
#[tactic(auto, unfolding(crate::specs::Addresses::quad_of))]
pub fn read_quad(text: &[u8]) -> Option<[u8; 4]>
    ensures { result ≡ quad_of text.now }
{
    let (first, rest) = cut(text, b'.')?;
    let (second, rest) = cut(rest, b'.')?;
    let (third, fourth) = cut(rest, b'.')?;
    let first = read_octet(first)?;
    let second = read_octet(second)?;
    let third = read_octet(third)?;
    let fourth = read_octet(fourth)?;
    Some([first, second, third, fourth])
}
