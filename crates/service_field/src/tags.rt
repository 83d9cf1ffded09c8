//! Tags, and items made of tags.
ghost use Rattle.std.specs.Prelude.{◌≡◌, ◌==◌, ◌+◌, ◌^◌, ◌<◌, ◌≤◌, ◌∷◌, [], length, position, MatchOption};
ghost use Rattle.service_field.specs.Faults.{pair_fault, run_of, tag_fault};
ghost use Rattle.service_field.specs.Fitting.{is_item, is_pair, is_tag};
ghost use Rattle.service_field.specs.Tags.{colon, cut_once, first_tag, tags_of};

use crate::ServiceFault;
use crate::alphabet::Alphabet;

/// The most bytes of a tag (RFC 6116, section 3.4.3; RFC 3958, section 6.5).
const MOST_TAG_BYTES: usize = 32;

// How many bytes of a tag a text begins with.
fn run_len(alphabet: Alphabet, text: &[u8]) -> usize
    ensures value { result ≡ run_of alphabet text.now }
    ensures within { result ≤ length text.now }
{
    text.iter()
        .position(|b| !alphabet.is_tag_byte(*b))
        .unwrap_or(text.len())
}

/// The fault of a text that is to be one tag, and begins at a place of the whole text.
pub(crate) fn tag_fault(alphabet: Alphabet, at: usize, text: &[u8]) -> Option<ServiceFault>
    requires { at + length text.now < 2 ^ 64 }
    ensures { result ≡ tag_fault alphabet at text.now }
{
    let run = run_len(alphabet, text);
    if !alphabet.begins_tag(text) {
        Some(ServiceFault::BadTag { at })
    } else if run > MOST_TAG_BYTES {
        Some(ServiceFault::TagTooLong { at })
    } else if run < text.len() {
        Some(ServiceFault::Trailing { at: at + run })
    } else {
        None
    }
}

/// The fault of a text that is to be a service and at most one protocol, and begins at a place of the whole text.
pub(crate) fn pair_fault(at: usize, text: &[u8]) -> Option<ServiceFault>
    requires { at + length text.now < 2 ^ 64 }
    ensures { result ≡ pair_fault at text.now }
{
    let (service, protocol) = halves(text);
    match tag_fault(Alphabet::Snaptr, at, service) {
        Some(fault) => Some(fault),
        None => match protocol {
            Some(protocol) => tag_fault(Alphabet::Snaptr, at + service.len() + 1, protocol),
            None => None,
        },
    }
}

// What stands before the first colon, and after it where there is one.
fn halves(text: &[u8]) -> (&[u8], Option<&[u8]>)
    ensures cut { MatchOption result.1 (cut_once text.now ≡ result.0.now ∷ [])
        (λ after. cut_once text.now ≡ result.0.now ∷ after.now ∷ []) }
    ensures within { MatchOption result.1 (length result.0.now ≤ length text.now)
        (λ after. length result.0.now + 1 + length after.now ≡ length text.now) }
{
    match colon_place(text) {
        Some(n) => (&text[..n], Some(&text[n + 1..])),
        None => (text, None),
    }
}

// The place of the first colon.
fn colon_place(text: &[u8]) -> Option<usize>
    ensures { result ≡ position (λ b. b == colon) text.now }
{
    text.iter().position(|b| *b == b':')
}

/// The first tag of an item.
pub(crate) fn first_tag(text: &[u8]) -> &[u8]
    ensures { result.now ≡ first_tag (tags_of text.now) }
{
    match colon_place(text) {
        Some(n) => &text[..n],
        None => text,
    }
}

/// Whether the bytes are tags with a colon between them.
pub(crate) fn is_item(alphabet: Alphabet, text: &[u8]) -> bool
    ensures { result ≡ is_item alphabet (tags_of text.now) }
{
    text.split(|b| *b == b':').all(|tag| is_tag(alphabet, tag))
}

fn is_tag(alphabet: Alphabet, text: &[u8]) -> bool
    ensures { result ≡ is_tag alphabet text.now }
{
    tag_fault(alphabet, 0, text).is_none()
}

/// Whether the bytes are a service and at most one protocol.
pub(crate) fn is_pair(text: &[u8]) -> bool
    ensures { result ≡ is_pair (tags_of text.now) }
{
    pair_fault(0, text).is_none()
}
