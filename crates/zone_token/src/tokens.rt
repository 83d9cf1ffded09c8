//! The tokens of an entry.
ghost use Rattle.std.specs.Prelude.{◌≡◌, ◌++◌, ◌<◌, ◌+◌, ◌||◌, nat_le, drop, length, OnOk};
ghost use Rattle.std.specs.Option.{option_to_list};
ghost use Rattle.zone_token.specs.Bytes.{is_blank, is_line_end};
ghost use Rattle.zone_token.specs.Tokens.{comment_size, is_blank_entry, GivesOrMemory, tokens_of};

use crate::bytes::{is_blank, is_line_end};
use crate::fault::TextWhy;
use crate::token::{Front, Token, comment_size};
use enum_base::{List, MemoryFault};
use std::alloc::Global;

// Appends the token, where there is one.
fn append<'a>(tokens: &mut List<Token<'a>>, token: Option<Token<'a>>) -> Result<(), MemoryFault>
    ensures { OnOk result (tokens.new ≡ tokens.old ++ option_to_list token.entry) }
{
    match token {
        None => Ok(()),
        Some(token) => tokens.push(token),
    }
}

/// What stands after the first byte and that many more.
pub(crate) fn rest_after(text: &[u8], more: usize) -> &[u8]
    requires { more < length text.now }
    ensures { result.now ≡ drop (more + 1) text.now }
{
    &text[more + 1..]
}

/// The tokens of an entry, or its first lexical fault.
pub fn read_tokens<'a>(alloc: Global, entry: &'a [u8]) -> Result<List<Token<'a>>, TextWhy>
    ensures { GivesOrMemory result (tokens_of entry.now) }
{
    let mut tokens = List::new(alloc);
    let mut inside = false;
    let mut rest = entry;
    while !rest.is_empty() {
        let Front {
            token,
            more,
            inside: open,
        } = Front::read(rest, inside)?;
        append(&mut tokens, token)?;
        inside = open;
        rest = rest_after(rest, more);
    }
    if inside {
        Err(TextWhy::OpenParen)
    } else {
        Ok(tokens)
    }
}

// Whether a blank or a line feed stands at the front.
fn is_space(text: &[u8]) -> bool
    ensures { result ≡ (is_blank text.now || is_line_end text.now) }
{
    is_blank(text) || is_line_end(text)
}

// Whether a comment of these bytes ends its entry.
fn is_last_comment(text: &[u8]) -> bool
    ensures { result ≡ nat_le (length text.now) (comment_size text.now + 1) }
{
    text.len() <= comment_size(text) + 1
}

/// Whether the entry is blank, but for a comment that ends it (RFC 1035, 5.1: `<blank>[<comment>]`). It has no token then.
/// No memory.
pub fn is_blank_entry(entry: &[u8]) -> bool
    ensures { result ≡ is_blank_entry entry.now }
{
    let mut rest = entry;
    while let [byte, after @ ..] = rest {
        if !is_space(rest) {
            return *byte == b';' && is_last_comment(after);
        }
        rest = after;
    }
    true
}
