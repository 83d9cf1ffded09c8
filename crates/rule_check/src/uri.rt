//! Which bytes are a URI.
ghost use Rattle.std.specs.Prelude.{◌≡◌, ◌<◌, ◌↔◌, ◌==◌, ◌∷◌, ◌++◌, not, IsTrue, MatchOption, length};
ghost use Rattle.std.specs.List.{AllPass};
ghost use Rattle.rule_check.specs.Uris.{IsScheme, IsUri, is_scheme_byte, is_visible};

/// Whether the bytes are a URI: a scheme, a colon and at least one byte, all visible (RFC 3986, section 3).
pub fn is_uri(bytes: &[u8]) -> bool
    ensures { IsTrue result ↔ IsUri bytes.now }
{
    match halves(bytes) {
        Some((scheme, rest)) => is_scheme(scheme) && is_rest(rest),
        None => false,
    }
}

/// The bytes before the first colon, and those after it.
pub(crate) fn halves(bytes: &[u8]) -> Option<(&[u8], &[u8])>
    ensures { MatchOption result (AllPass (λ b. not (b == 58)) bytes.now) (λ parts.
        (bytes.now ≡ parts.0.now ++ 58 ∷ parts.1.now) × AllPass (λ b. not (b == 58)) parts.0.now) }
{
    let colon = bytes.iter().position(|b| *b == b':')?;
    Some((&bytes[..colon], &bytes[colon + 1..]))
}

/// Whether the bytes are a scheme (RFC 3986, section 3.1).
pub(crate) fn is_scheme(bytes: &[u8]) -> bool
    ensures { IsTrue result ↔ IsScheme bytes.now }
{
    match bytes {
        [first, rest @ ..] => first.is_ascii_alphabetic()
            && rest.iter().all(|b| is_scheme_byte(*b)),
        [] => false,
    }
}

// Whether a scheme may have the byte after its first letter.
fn is_scheme_byte(b: u8) -> bool
    ensures { result ≡ is_scheme_byte b }
{
    b.is_ascii_alphanumeric() || b == b'+' || b == b'-' || b == b'.'
}

// Whether the bytes can stand after the colon.
fn is_rest(bytes: &[u8]) -> bool
    ensures { IsTrue result ↔ ((0 < length bytes.now) × AllPass is_visible bytes.now) }
{
    !bytes.is_empty() && bytes.iter().all(|b| (b'!'..=b'~').contains(b))
}
