//! The tokens at the front of a text.
ghost use Rattle.std.specs.Prelude.{◌≡◌, ◌&&◌, ◌==◌, ◌≤◌, ◌<◌, not, false, length, IfOk, IfSome, position};
ghost use Rattle.zone_token.specs.Bytes.{line_feed, quote, backslash, size_until};
ghost use Rattle.zone_token.specs.Tokens.{ends_bare, is_bare, bare_from, is_in_quotes, quoted_from, comment_size, is_plain, is_plain_quoted};

use crate::bytes::{is_blank, is_escape, is_quotable, is_visible};
use crate::fault::TextWhy;
use std::marker::Model;

/// A token of an entry: its bytes, without the quotation marks around a quoted one. Escapes stand as they are.
#[derive(Debug, Drop)]
pub struct Token<'a> {
    quoted: bool,
    text: &'a [u8],
}

impl<'a> Model for Token<'a> {
    ghost use Rattle.zone_token.specs.Token as token;

    ghost Value = { token.Token };

    ghost view = { λ t. record { quoted = t.quoted; text = t.text.now } };
}

impl<'a> Token<'a> {
    /// Whether it stands between quotation marks.
    pub fn is_quoted(&self) -> bool
        ensures { result ≡ self.now.quoted }
    {
        self.quoted
    }

    /// The bytes, escapes as they stand.
    pub fn text(&self) -> &'a [u8]
        ensures { result.now ≡ self.now.text }
    {
        self.text
    }
}

// Whether a bare token ends at the front of the text.
fn ends_bare(text: &[u8]) -> bool
    ensures { result ≡ ends_bare text.now }
{
    is_blank(text) || matches!(text, [] | [b'\n' | b';' | b'(' | b')' | b'"', ..])
}

// Whether a token ends here, where no backslash stands before.
fn ends_here(escaped: bool, text: &[u8]) -> bool
    ensures { result ≡ (not escaped && ends_bare text.now) }
{
    !escaped && ends_bare(text)
}

// Whether the byte escapes the next one.
fn begins_escape(escaped: bool, byte: u8) -> bool
    ensures { result ≡ (not escaped && byte == backslash) }
{
    !escaped && byte == b'\\'
}

// Whether the byte is a quotation mark that closes.
fn closes(escaped: bool, byte: u8) -> bool
    ensures { result ≡ (not escaped && byte == quote) }
{
    !escaped && byte == b'"'
}

// Whether the first byte may stand in a bare token, after a backslash or not.
fn is_bare(escaped: bool, text: &[u8]) -> bool
    ensures { result ≡ is_bare escaped text.now }
{
    match text {
        [] => false,
        [byte, ..] => (is_visible(*byte) || is_blank(text)) && (!escaped || is_escape(text)),
    }
}

// Whether the first byte may stand in a quoted token, after a backslash or not.
fn is_in_quotes(escaped: bool, text: &[u8]) -> bool
    ensures { result ≡ is_in_quotes escaped text.now }
{
    match text {
        [] => false,
        [byte, ..] => is_quotable(*byte) && (!escaped || is_escape(text)),
    }
}

// Whether the byte stands in a bare token whatever stands around it, where no backslash stands before.
fn is_plain(byte: u8) -> bool
    ensures { result ≡ is_plain byte }
{
    matches!(byte, b'!' | b'#'..=b'\'' | b'*'..=b':' | b'<'..=b'[' | b']'..=b'~')
}

// The place of the first byte that is not plain.
fn first_other(text: &[u8]) -> Option<usize>
    ensures value { result ≡ position (λ byte. not (is_plain byte)) text.now }
    ensures within { IfSome result (λ at. at < length text.now) }
{
    text.iter().position(|byte| !is_plain(*byte))
}

// How many plain bytes stand at the front of the text.
fn plain_size(text: &[u8]) -> usize
    ensures value { result ≡ size_until (λ byte. not (is_plain byte)) text.now }
    ensures within { result ≤ length text.now }
{
    first_other(text).unwrap_or(text.len())
}

// Whether the byte stands in a quoted token whatever stands around it, where no backslash stands before.
fn is_plain_quoted(byte: u8) -> bool
    ensures { result ≡ is_plain_quoted byte }
{
    matches!(byte, b' ' | b'!' | b'#'..=b'[' | b']'..=b'~')
}

// The place of the first byte that is not one of these.
fn first_other_quoted(text: &[u8]) -> Option<usize>
    ensures value { result ≡ position (λ byte. not (is_plain_quoted byte)) text.now }
    ensures within { IfSome result (λ at. at < length text.now) }
{
    text.iter().position(|byte| !is_plain_quoted(*byte))
}

// How many of these stand at the front of the text.
fn plain_quoted_size(text: &[u8]) -> usize
    ensures value { result ≡ size_until (λ byte. not (is_plain_quoted byte)) text.now }
    ensures within { result ≤ length text.now }
{
    first_other_quoted(text).unwrap_or(text.len())
}

// How many bytes a bare token has at the front of the text.
fn bare_size(text: &[u8]) -> Result<usize, TextWhy>
    ensures value { result ≡ bare_from false 0 text.now }
    ensures within { IfOk result (λ size. size ≤ length text.now) }
{
    let mut escaped = false;
    let mut size = plain_size(text);
    let mut rest = &text[size..];
    while let [byte, after @ ..] = rest {
        if ends_here(escaped, rest) {
            return Ok(size);
        }
        if !is_bare(escaped, rest) {
            return Err(TextWhy::BadToken);
        }
        escaped = begins_escape(escaped, *byte);
        size += 1;
        rest = after;
    }
    if escaped {
        Err(TextWhy::BadToken)
    } else {
        Ok(size)
    }
}

// How many bytes stand at the front of the text before the quotation mark that closes.
fn quoted_size(text: &[u8]) -> Result<usize, TextWhy>
    ensures value { result ≡ quoted_from false 0 text.now }
    ensures within { IfOk result (λ size. size < length text.now) }
{
    let mut escaped = false;
    let mut size = plain_quoted_size(text);
    let mut rest = &text[size..];
    while let [byte, after @ ..] = rest {
        if *byte == b'\n' {
            return Err(TextWhy::OpenQuote);
        }
        if closes(escaped, *byte) {
            return Ok(size);
        }
        if !is_in_quotes(escaped, rest) {
            return Err(TextWhy::BadToken);
        }
        escaped = begins_escape(escaped, *byte);
        size += 1;
        rest = after;
    }
    Err(if escaped {
        TextWhy::BadToken
    } else {
        TextWhy::OpenQuote
    })
}

// The place of the first line feed.
fn first_line_feed(text: &[u8]) -> Option<usize>
    ensures value { result ≡ position (λ byte. byte == line_feed) text.now }
    ensures within { IfSome result (λ at. at < length text.now) }
{
    text.iter().position(|byte| *byte == b'\n')
}

/// How many bytes stand at the front of the text before its first line feed.
pub(crate) fn comment_size(text: &[u8]) -> usize
    ensures value { result ≡ comment_size text.now }
    ensures within { result ≤ length text.now }
{
    first_line_feed(text).unwrap_or(text.len())
}

/// What stands at the front of a text.
#[derive(Debug, Drop)]
pub(crate) struct Front<'a> {
    pub(crate) token: Option<Token<'a>>,
    /// How many bytes it has beyond the first.
    pub(crate) more: usize,
    /// Whether parentheses are open after it.
    pub(crate) inside: bool,
}

impl<'a> Front<'a> {
    ghost use Rattle.zone_token.specs.Tokens.{nothing, one, front_of};

    // No token.
    fn nothing(more: usize, inside: bool) -> Front<'a>
        ensures { result ≡ nothing more inside }
    {
        Front {
            token: None,
            more,
            inside,
        }
    }

    // A token.
    fn one(quoted: bool, text: &'a [u8], more: usize, inside: bool) -> Front<'a>
        ensures { result ≡ one quoted text.now more inside }
    {
        Front {
            token: Some(Token { quoted, text }),
            more,
            inside,
        }
    }

    /// What stands at the front of the text, with parentheses open or not.
    #[tactic(auto, unfolding(crate::specs::Tokens::front_of))]
    pub(crate) fn read(text: &'a [u8], inside: bool) -> Result<Front<'a>, TextWhy>
        requires { 0 < length text.now }
        ensures value { result ≡ front_of inside text.now }
        ensures within { IfOk result (λ front. front.more < length text.now) }
    {
        let [byte, rest @ ..] = text else {
            return Err(TextWhy::BadToken);
        };
        if is_blank(text) || *byte == b'\n' {
            return Ok(Front::nothing(0, inside));
        }
        match *byte {
            b';' => Ok(Front::nothing(comment_size(rest), inside)),
            b'(' if inside => Err(TextWhy::BadToken),
            b'(' => Ok(Front::nothing(0, true)),
            b')' if inside => Ok(Front::nothing(0, false)),
            b')' => Err(TextWhy::BadToken),
            b'"' => {
                let size = quoted_size(rest)?;
                Ok(Front::one(true, &rest[..size], size + 1, inside))
            }
            _ => {
                let size = bare_size(text)?;
                Ok(Front::one(false, &text[..size], size.saturating_sub(1), inside))
            }
        }
    }
}
