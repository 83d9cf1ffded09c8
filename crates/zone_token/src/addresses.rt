//! Addresses of sixteen bytes.
ghost use Rattle.std.specs.Prelude.{true, ◌≡◌, ◌+◌, ◌<◌, ◌≤◌, ◌++◌, length, replicate, IfSome, ◌==◌, ◌&&◌, option_and_then, MatchOption, Some, None};
ghost use Rattle.zone_token.specs.Addresses.{colon, hex_of, digits_of, group_of, last_group, groups_of, side_of};
ghost use Rattle.zone_token.specs.Addresses.{is_colon, double_from, cut_double, filled, if_whole, address_of};

use crate::cuts::cut;
use crate::quads::read_quad;
use enum_base::Buffer;

// The most groups of an address.
const MOST_GROUPS: usize = 8;

// The value of a hexadecimal digit, in any case.
fn hex_of(digit: u8) -> Option<u8>
    ensures value { result ≡ hex_of digit }
    ensures small { IfSome result (λ value. value < 16) }
{
    match digit.to_ascii_lowercase() {
        value @ b'0'..=b'9' => Some(value - b'0'),
        value @ b'a'..=b'f' => Some(value - b'a' + 10),
        _ => None,
    }
}

// The two bytes of four hexadecimal digits.
#[tactic(auto, unfolding(crate::specs::Addresses::digits_of))]
fn read_digits(a: u8, b: u8, c: u8, d: u8) -> Option<[u8; 2]>
    ensures { result ≡ digits_of a b c d }
{
    let first = hex_of(a)?;
    let second = hex_of(b)?;
    let third = hex_of(c)?;
    let fourth = hex_of(d)?;
    Some([16 * first + second, 16 * third + fourth])
}

// The two bytes of a group: one to four hexadecimal digits.
fn read_group(text: &[u8]) -> Option<[u8; 2]>
    ensures value { result ≡ group_of text.now }
    ensures size { IfSome result (λ group. length group ≡ 2) }
{
    match text {
        [d] => read_digits(b'0', b'0', b'0', *d),
        [c, d] => read_digits(b'0', b'0', *c, *d),
        [b, c, d] => read_digits(b'0', *b, *c, *d),
        [a, b, c, d] => read_digits(*a, *b, *c, *d),
        _ => None,
    }
}

// The bytes of the last of some groups, which may be a dotted quad.
#[tactic(auto, unfolding(crate::specs::Addresses::last_group))]
fn read_last(quad: bool, text: &[u8]) -> Option<Buffer<4>>
    ensures value { result ≡ last_group quad text.now }
    ensures most { IfSome result (λ bytes. length bytes ≤ 4) }
{
    let mut bytes = Buffer::<4>::new();
    if let Some(group) = read_group(text) {
        bytes.push_slice(&group);
        return Some(bytes);
    }
    if !quad {
        return None;
    }
    let address = read_quad(text)?;
    bytes.push_slice(&address);
    Some(bytes)
}

// The bytes of one to eight groups with colons between them, the last a dotted quad where one may stand.
fn read_groups(quad: bool, text: &[u8]) -> Option<Buffer<18>>
    ensures value { result ≡ groups_of 8 quad text.now }
    ensures most { IfSome result (λ bytes. length bytes ≤ 18) }
{
    let mut bytes = Buffer::<18>::new();
    let mut rest = text;
    for more in (0..MOST_GROUPS).rev() {
        let Some((group, after)) = cut(rest, b':') else {
            let last = read_last(quad, rest)?;
            bytes.push_slice(last.as_slice());
            return Some(bytes);
        };
        let group = read_group(group)?;
        bytes.push_slice(&group);
        rest = after;
    }
    None
}

// The bytes of the groups on one side of two colons, which may be none.
#[tactic(auto, unfolding(crate::specs::Addresses::side_of))]
fn read_side(quad: bool, text: &[u8]) -> Option<Buffer<18>>
    ensures value { result ≡ side_of quad text.now }
    ensures most { IfSome result (λ bytes. length bytes ≤ 18) }
{
    if text.is_empty() {
        Some(Buffer::<18>::new())
    } else {
        read_groups(quad, text)
    }
}

// Whether a colon stands at the front.
fn is_colon(text: &[u8]) -> bool
    ensures { result ≡ is_colon text.now }
{
    matches!(text, [b':', ..])
}

// Whether two colons in a row stand at the front, the first of which is this byte.
fn begins_double(byte: u8, rest: &[u8]) -> bool
    ensures { result ≡ (byte == colon && is_colon rest.now) }
{
    byte == b':' && is_colon(rest)
}

// The place of the first two colons in a row.
fn double_place(text: &[u8]) -> Option<usize>
    ensures value { result ≡ double_from 0 text.now }
    ensures within { IfSome result (λ at. at + 2 ≤ length text.now) }
{
    let mut at = 0;
    let mut rest = text;
    while let [byte, after @ ..] = rest {
        if begins_double(*byte, after) {
            return Some(at);
        }
        at += 1;
        rest = after;
    }
    None
}

// What stands before the first two colons in a row, and what stands after them.
fn cut_double(text: &[u8]) -> Option<(&[u8], &[u8])>
    ensures { MatchOption result (cut_double text.now ≡ None)
        (λ sides. cut_double text.now ≡ Some (sides.0.now, sides.1.now)) }
{
    let at = double_place(text)?;
    Some((&text[..at], &text[at + 2..]))
}

// Sixteen bytes in a row.
fn row_of(bytes: &[u8]) -> [u8; 16]
    requires { length bytes.now ≡ 16 }
    ensures { result ≡ bytes.now }
{
    let mut row = [0; 16];
    row.copy_from_slice(bytes);
    row
}

// The bytes of both sides, with zeros for one or more groups between them.
#[tactic(auto, unfolding(crate::specs::Addresses::filled))]
fn filled(front: &[u8], back: &[u8]) -> Option<[u8; 16]>
    requires { (length front.now ≤ 18) × (length back.now ≤ 18) }
    ensures { result ≡ filled front.now back.now }
{
    if front.len() + back.len() > 14 {
        return None;
    }
    let mut bytes = Buffer::<16>::new();
    bytes.push_slice(front);
    push_zeros(&mut bytes, 16 - front.len() - back.len());
    bytes.push_slice(back);
    Some(row_of(bytes.as_slice()))
}

// Appends so many zeros.
fn push_zeros(bytes: &mut Buffer<16>, number: usize)
    requires { length bytes.old + number ≤ 16 }
    ensures { bytes.new ≡ bytes.old ++ replicate number 0 }
{
    for _written in 0..number {
        bytes.push(0);
    }
}

/// The sixteen bytes of an address (RFC 4291, 2.2): eight groups of one to four hexadecimal digits with colons between
/// them, or fewer around two colons; the last two groups may be a dotted quad.
#[tactic(auto, unfolding(crate::specs::Addresses::address_of))]
pub fn read_address(text: &[u8]) -> Option<[u8; 16]>
    ensures { result ≡ address_of text.now }
{
    match cut_double(text) {
        None => read_whole(text),
        Some((front, back)) => {
            let front = read_side(false, front)?;
            let back = read_side(true, back)?;
            filled(front.as_slice(), back.as_slice())
        }
    }
}

// The bytes of eight groups.
fn read_whole(text: &[u8]) -> Option<[u8; 16]>
    ensures { result ≡ option_and_then if_whole (groups_of 8 true text.now) }
{
    let bytes = read_groups(true, text)?;
    let bytes = bytes.as_slice();
    if bytes.len() == 16 {
        Some(row_of(bytes))
    } else {
        None
    }
}
