//! The TTL, the class and the type of a record.
ghost use Rattle.std.specs.Prelude.{◌≡◌, ◌≤◌, take, codes, IfOk};
ghost use Rattle.zone_token.specs.Fields.{is_word};
ghost use Rattle.zone_text.specs.Meaning.{begins_digit, counted, ttl_at, is_other_class, class_at, ttl_unless, kind_at};

use crate::kind::Kind;
use zone_token::{TextWhy, Token, bare_at, is_word, read_time};

/// What stands before the type.
#[derive(Clone, Copy, Debug)]
pub(crate) struct Head {
    /// The stated TTL, in seconds.
    pub(crate) ttl: Option<u32>,
    /// The place of the type among the tokens.
    pub(crate) place: usize,
}

// Whether a digit stands at the front.
fn begins_digit(text: &[u8]) -> bool
    ensures { result ≡ begins_digit text.now }
{
    matches!(text, [first, ..] if first.is_ascii_digit())
}

// One, where it holds.
fn counted(holds: bool) -> usize
    ensures { result ≡ counted holds }
{
    if holds { 1 } else { 0 }
}

// The TTL at a place, where one stands there.
#[tactic(auto, unfolding(crate::specs::Meaning::ttl_at))]
fn ttl_at(tokens: &[Token], place: usize) -> Result<Option<u32>, TextWhy>
    ensures { result ≡ ttl_at tokens.now place }
{
    let Some(text) = bare_at(tokens, place) else {
        return Ok(None);
    };
    if !begins_digit(text) {
        return Ok(None);
    }
    match read_time(text) {
        Some(ttl) => Ok(Some(ttl)),
        None => Err(TextWhy::BadTtl),
    }
}

// Whether the text begins with `CLASS`, in any case.
fn begins_class(text: &[u8]) -> bool
    ensures { result ≡ is_word (take 5 text.now) (codes "CLASS") }
{
    is_word(&text[..text.len().min(5)], b"CLASS")
}

// Whether the word is a class other than IN.
#[tactic(auto, unfolding(crate::specs::Meaning::is_other_class))]
fn is_other_class(text: &[u8]) -> bool
    ensures { result ≡ is_other_class text.now }
{
    is_word(text, b"CH") || is_word(text, b"HS") || is_word(text, b"CS") || begins_class(text)
}

// Whether the class stands at a place.
#[tactic(auto, unfolding(crate::specs::Meaning::class_at))]
fn class_at(tokens: &[Token], place: usize) -> Result<bool, TextWhy>
    ensures { result ≡ class_at tokens.now place }
{
    let Some(text) = bare_at(tokens, place) else {
        return Ok(false);
    };
    if is_word(text, b"IN") {
        Ok(true)
    } else if is_other_class(text) {
        Err(TextWhy::WrongClass)
    } else {
        Ok(false)
    }
}

// The TTL at a place, unless one was stated before.
#[tactic(auto, unfolding(crate::specs::Meaning::ttl_unless))]
fn ttl_unless(before: Option<u32>, tokens: &[Token], place: usize) -> Result<Option<u32>, TextWhy>
    ensures { result ≡ ttl_unless before tokens.now place }
{
    if before.is_some() {
        return Ok(None);
    }
    ttl_at(tokens, place)
}

impl Head {
    ghost use Rattle.zone_text.specs.Meaning.{head_at};

    /// TTL and class from a place on, each optional, in either order.
    #[tactic(auto, unfolding(crate::specs::Meaning::head_at))]
    pub(crate) fn read(tokens: &[Token], place: usize) -> Result<Head, TextWhy>
        requires { place ≤ 1 }
        ensures value { result ≡ head_at tokens.now place }
        ensures within { IfOk result (λ head. head.place ≤ 4) }
    {
        let before = ttl_at(tokens, place)?;
        let place = place + counted(before.is_some());
        let class = class_at(tokens, place)?;
        let place = place + counted(class);
        let after = ttl_unless(before, tokens, place)?;
        let place = place + counted(after.is_some());
        Ok(Head {
            ttl: before.or(after),
            place,
        })
    }
}

/// The type at a place.
#[tactic(auto, unfolding(crate::specs::Meaning::kind_at))]
pub(crate) fn kind_at(tokens: &[Token], place: usize) -> Result<Kind, TextWhy>
    ensures { result ≡ kind_at tokens.now place }
{
    let Some(text) = bare_at(tokens, place) else {
        return Err(TextWhy::UnknownType);
    };
    Kind::read(text).ok_or(TextWhy::UnknownType)
}
