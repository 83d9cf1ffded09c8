//! Texts cut in two.
ghost use Rattle.std.specs.Prelude.{◌≡◌, ◌==◌, ◌<◌, position, length, Some, None, MatchOption, IfSome};
ghost use Rattle.zone_token.specs.Addresses.{cut};

/// The place of the first such byte.
pub(crate) fn first_place(text: &[u8], byte: u8) -> Option<usize>
    ensures value { result ≡ position (λ b. b == byte) text.now }
    ensures within { IfSome result (λ at. at < length text.now) }
{
    text.iter().position(|b| *b == byte)
}

/// What stands before the first such byte, and what stands after it.
pub(crate) fn cut(text: &[u8], byte: u8) -> Option<(&[u8], &[u8])>
    ensures { MatchOption result (cut byte text.now ≡ None)
        (λ parts. cut byte text.now ≡ Some (parts.0.now, parts.1.now)) }
{
    let at = first_place(text, byte)?;
    Some((&text[..at], &text[at + 1..]))
}
