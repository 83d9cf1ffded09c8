//! What an entry means.
ghost use Rattle.std.specs.Prelude.{◌≡◌, ◌≤◌, ◌+◌, drop, option_and_then, IsTrue, IfOk, Ok};
ghost use Rattle.std.specs.Option.{ok_or};
ghost use Rattle.zone_token.specs.Bytes.{dollar};
ghost use Rattle.zone_token.specs.Fields.{bare_at};
ghost use Rattle.zone_token.specs.Times.{time_of};
ghost use Rattle.zone_token.specs.Tokens.{GivesOrMemory, tokens_of};
ghost use Rattle.zone_text.specs.Meaning.{begins_with, origin_of, default_ttl_of, minimum_of, is_directive, is_whole_meaning};

use crate::data::read_content;
use crate::head::{Head, kind_at};
use crate::kind::Kind;
use dns_name::Name;
use dns_wire::Content;
use std::alloc::Global;
use zone_token::{TextWhy, Token, bare_at, ends_at, is_blank, name_at, read_time};

/// What stands before an entry.
#[derive(Clone, Copy, Debug)]
pub(crate) struct Standing {
    /// What relative names end with.
    pub(crate) origin: Name,
    /// The owner of the record before.
    pub(crate) owner: Option<Name>,
    /// The TTL of the last `$TTL`, in seconds.
    pub(crate) default_ttl: Option<u32>,
    /// The TTL of the record before, in seconds.
    pub(crate) last_ttl: Option<u32>,
}

/// What an entry states: a record of class IN.
#[derive(Drop)]
pub struct Statement {
    pub owner: Name,
    /// In seconds.
    pub ttl: u32,
    pub content: Content,
}

/// What an entry means.
#[derive(Drop)]
pub(crate) enum Meaning {
    /// It has no token.
    Nothing,
    /// `$ORIGIN` and a name.
    Origin(Name),
    /// `$TTL` and a time in seconds.
    DefaultTtl(u32),
    Record(Statement),
}

// The name of `$ORIGIN`.
#[tactic(auto, unfolding(crate::specs::Meaning::origin_of))]
fn read_origin(origin: &Name, tokens: &[Token]) -> Result<Name, TextWhy>
    ensures { result ≡ origin_of origin.now tokens.now }
{
    let name = name_at(TextWhy::BadName, origin, tokens, 1)?;
    ends_at(tokens, 2)?;
    Ok(name)
}

// The time at a place.
fn ttl_of(tokens: &[Token]) -> Result<u32, TextWhy>
    ensures { result ≡ ok_or (option_and_then time_of (bare_at tokens.now 1)) TextWhy.BadTtl }
{
    let Some(text) = bare_at(tokens, 1) else {
        return Err(TextWhy::BadTtl);
    };
    read_time(text).ok_or(TextWhy::BadTtl)
}

// The time of `$TTL`.
#[tactic(auto, unfolding(crate::specs::Meaning::default_ttl_of))]
fn read_default_ttl(tokens: &[Token]) -> Result<u32, TextWhy>
    ensures { result ≡ default_ttl_of tokens.now }
{
    let ttl = ttl_of(tokens)?;
    ends_at(tokens, 2)?;
    Ok(ttl)
}

// Whether the word begins with `$`.
fn begins_dollar(word: &[u8]) -> bool
    ensures { result ≡ begins_with dollar word.now }
{
    matches!(word, [b'$', ..])
}

// Whether a directive begins with this token.
fn is_directive(blank: bool, token: &Token) -> bool
    ensures { result ≡ is_directive blank token.now }
{
    !blank && !token.is_quoted() && begins_dollar(token.text())
}

// The TTL that an SOA takes where it has none: its minimum.
fn minimum_of(content: &Content) -> u32
    ensures { result ≡ minimum_of content.now }
{
    match content {
        Content::Soa(soa) => soa.minimum,
        _ => 0,
    }
}

impl Standing {
    ghost use Rattle.zone_text.specs.Meaning.{ttl_for, stated, statement_of, record_of, directive_of, meaning_of, entry_of};

    // The TTL of a record that states this one or none, unless it takes its own.
    #[tactic(auto, unfolding(crate::specs::Meaning::ttl_for))]
    fn ttl_for(&self, stated: Option<u32>, kind: Kind) -> Result<Option<u32>, TextWhy>
        ensures { result ≡ ttl_for self.now stated kind }
    {
        let known = stated.or(self.default_ttl).or(self.last_ttl);
        if known.is_some() || kind.needs_no_ttl() {
            Ok(known)
        } else {
            Err(TextWhy::NoTtl)
        }
    }

    // The record of this owner, whose TTL, class, type and data stand from a place on.
    #[tactic(auto, unfolding(crate::specs::Meaning::statement_of))]
    fn read_statement(
        &self,
        alloc: Global,
        owner: &Name,
        tokens: &[Token],
        place: usize,
    ) -> Result<Meaning, TextWhy>
        requires { place ≤ 1 }
        ensures value { GivesOrMemory result (stated (statement_of self.now owner.now tokens.now place)) }
        ensures whole { IfOk result (λ meaning. IsTrue (is_whole_meaning meaning)) }
    {
        let head = Head::read(tokens, place)?;
        let kind = kind_at(tokens, head.place)?;
        let ttl = self.ttl_for(head.ttl, kind)?;
        let fields = tokens_after(tokens, head.place);
        let content = read_content(alloc, kind, &self.origin, fields)?;
        Ok(Meaning::Record(Statement {
            owner: *owner,
            ttl: ttl.unwrap_or(minimum_of(&content)),
            content,
        }))
    }

    // The record whose owner stands first, or is that of the record before.
    #[tactic(auto, unfolding(crate::specs::Meaning::record_of))]
    fn read_record(&self, alloc: Global, blank: bool, tokens: &[Token]) -> Result<Meaning, TextWhy>
        ensures value { GivesOrMemory result (stated (record_of self.now blank tokens.now)) }
        ensures whole { IfOk result (λ meaning. IsTrue (is_whole_meaning meaning)) }
    {
        if blank {
            let Some(owner) = &self.owner else {
                return Err(TextWhy::NoOwner);
            };
            self.read_statement(alloc, owner, tokens, 0)
        } else {
            let owner = name_at(TextWhy::BadName, &self.origin, tokens, 0)?;
            self.read_statement(alloc, &owner, tokens, 1)
        }
    }

    // What a directive means.
    #[tactic(auto, unfolding(crate::specs::Meaning::directive_of))]
    fn read_directive(&self, word: &[u8], tokens: &[Token]) -> Result<Meaning, TextWhy>
        ensures value { result ≡ directive_of self.now.origin word.now tokens.now }
        ensures whole { IfOk result (λ meaning. IsTrue (is_whole_meaning meaning)) }
    {
        if word == b"$ORIGIN".as_slice() {
            Ok(Meaning::Origin(read_origin(&self.origin, tokens)?))
        } else if word == b"$TTL".as_slice() {
            Ok(Meaning::DefaultTtl(read_default_ttl(tokens)?))
        } else {
            Err(TextWhy::UnknownDirective)
        }
    }

    // What tokens mean, after a blank at the beginning of the entry or not.
    #[tactic(auto, unfolding(crate::specs::Meaning::meaning_of))]
    fn read_meaning(&self, alloc: Global, blank: bool, tokens: &[Token]) -> Result<Meaning, TextWhy>
        ensures value { GivesOrMemory result (meaning_of self.now blank tokens.now) }
        ensures whole { IfOk result (λ meaning. IsTrue (is_whole_meaning meaning)) }
    {
        let [token, ..] = tokens else {
            return Ok(Meaning::Nothing);
        };
        if is_directive(blank, token) {
            self.read_directive(token.text(), tokens)
        } else {
            self.read_record(alloc, blank, tokens)
        }
    }

    /// What an entry of these tokens means, or its first fault.
    #[tactic(auto, unfolding(crate::specs::Meaning::entry_of))]
    pub(crate) fn read_entry(
        &self,
        alloc: Global,
        entry: &[u8],
        tokens: &[Token],
    ) -> Result<Meaning, TextWhy>
        ensures value { tokens_of entry.now ≡ Ok tokens.now → GivesOrMemory result (entry_of self.now entry.now) }
        ensures whole { IfOk result (λ meaning. IsTrue (is_whole_meaning meaning)) }
    {
        self.read_meaning(alloc, is_blank(entry), tokens)
    }
}

// The tokens after a place.
fn tokens_after<'a, 'b>(tokens: &'b [Token<'a>], place: usize) -> &'b [Token<'a>]
    requires { place ≤ 4 }
    ensures { result.now ≡ drop (place + 1) tokens.now }
{
    if place < tokens.len() {
        &tokens[place + 1..]
    } else {
        &[]
    }
}
