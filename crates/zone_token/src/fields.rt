//! The fields of an entry.
ghost use Rattle.std.specs.Prelude.{◌≡◌, slice_get, Some, None, MatchOption};
ghost use Rattle.zone_token.specs.Fields.{is_word, name_in, name_at, bare_at, ends_at};

use crate::fault::TextWhy;
use crate::token::Token;
use dns_name::Name;
use enum_base::same_folded;

/// Whether the text is this word, in any case.
#[tactic(auto, unfolding(crate::specs::Fields::is_word))]
pub fn is_word(text: &[u8], word: &[u8]) -> bool
    ensures { result ≡ is_word text.now word.now }
{
    same_folded(text, word)
}

// The name that a token stands for under an origin.
#[tactic(auto, unfolding(crate::specs::Fields::name_in))]
fn read_name(origin: &Name, token: &Token) -> Result<Name, TextWhy>
    ensures { result ≡ name_in origin.now token.now }
{
    let text = token.text();
    if token.is_quoted() {
        return Err(TextWhy::BadName);
    }
    if text == b"@".as_slice() {
        return Ok(*origin);
    }
    match Name::from_text(text, Some(origin)) {
        Ok(name) => Ok(name),
        Err(_) => Err(TextWhy::BadName),
    }
}

/// The token at a place.
pub fn token_at<'a, 'b>(tokens: &'b [Token<'a>], place: usize) -> Option<&'b Token<'a>>
    ensures { MatchOption result (slice_get tokens.now place ≡ None) (λ token. slice_get tokens.now place ≡ Some token.now) }
{
    tokens.get(place)
}

/// The name at a place under an origin; `missing` where there is no token.
#[tactic(auto, unfolding(crate::specs::Fields::name_at))]
pub fn name_at(
    missing: TextWhy,
    origin: &Name,
    tokens: &[Token],
    place: usize,
) -> Result<Name, TextWhy>
    ensures { result ≡ name_at missing origin.now tokens.now place }
{
    match token_at(tokens, place) {
        None => Err(missing),
        Some(token) => read_name(origin, token),
    }
}

/// The text of the bare token at a place.
#[tactic(auto, unfolding(crate::specs::Fields::bare_at))]
pub fn bare_at<'a>(tokens: &[Token<'a>], place: usize) -> Option<&'a [u8]>
    ensures { MatchOption result (bare_at tokens.now place ≡ None) (λ text. bare_at tokens.now place ≡ Some text.now) }
{
    let token = token_at(tokens, place)?;
    if token.is_quoted() {
        None
    } else {
        Some(token.text())
    }
}

/// Refuses a token at a place or after it.
#[tactic(auto, unfolding(crate::specs::Fields::ends_at))]
pub fn ends_at(tokens: &[Token], place: usize) -> Result<(), TextWhy>
    ensures { result ≡ ends_at tokens.now place }
{
    if tokens.len() <= place {
        Ok(())
    } else {
        Err(TextWhy::BadData)
    }
}
