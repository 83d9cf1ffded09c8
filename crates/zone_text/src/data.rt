//! The data of the ten types.
ghost use Rattle.std.specs.Prelude.{◌≡◌, ◌<◌, length, IsTrue, IfOk};
ghost use Rattle.dns_wire.specs.Kinds.{is_whole};
ghost use Rattle.zone_token.specs.Tokens.{GivesOrMemory};
ghost use Rattle.zone_text.specs.Data.{number_at, time_at, quad_at, address_at, string_at, target_of, a_of, aaaa_of};
ghost use Rattle.zone_text.specs.Data.{soa_of, mx_of, strings_of, txt_of, srv_of, rule_of, content_of};
ghost use Rattle.zone_token.specs.Texts.{string_of};
ghost use Rattle.std.specs.Option.{ok_or};

use crate::kind::Kind;
use dns_name::Name;
use dns_wire::{Content, Soa, Texts};
use enum_base::{Text255, read_u16, read_u32};
use naptr_rule::Naptr;
use std::alloc::Global;
use zone_token::{
    TextWhy, Token, bare_at, ends_at, name_at, read_address, read_quad, read_string, read_time,
    token_at,
};

// The number of 16 bits at a place.
#[tactic(auto, unfolding(crate::specs::Data::number_at))]
fn u16_at(fields: &[Token], place: usize) -> Result<u16, TextWhy>
    ensures { result ≡ number_at 65_535 fields.now place }
{
    let Some(text) = bare_at(fields, place) else {
        return Err(TextWhy::BadData);
    };
    read_u16(text).ok().ok_or(TextWhy::BadData)
}

// The number of 32 bits at a place.
#[tactic(auto, unfolding(crate::specs::Data::number_at))]
fn u32_at(fields: &[Token], place: usize) -> Result<u32, TextWhy>
    ensures { result ≡ number_at 4_294_967_295 fields.now place }
{
    let Some(text) = bare_at(fields, place) else {
        return Err(TextWhy::BadData);
    };
    read_u32(text).ok().ok_or(TextWhy::BadData)
}

// The time at a place.
#[tactic(auto, unfolding(crate::specs::Data::time_at))]
fn time_at(fields: &[Token], place: usize) -> Result<u32, TextWhy>
    ensures { result ≡ time_at fields.now place }
{
    let Some(text) = bare_at(fields, place) else {
        return Err(TextWhy::BadData);
    };
    read_time(text).ok_or(TextWhy::BadData)
}

// The dotted quad at a place.
#[tactic(auto, unfolding(crate::specs::Data::quad_at))]
fn quad_at(fields: &[Token], place: usize) -> Result<[u8; 4], TextWhy>
    ensures { result ≡ quad_at fields.now place }
{
    let Some(text) = bare_at(fields, place) else {
        return Err(TextWhy::BadData);
    };
    read_quad(text).ok_or(TextWhy::BadData)
}

// The address of sixteen bytes at a place.
#[tactic(auto, unfolding(crate::specs::Data::address_at))]
fn address_at(fields: &[Token], place: usize) -> Result<[u8; 16], TextWhy>
    ensures { result ≡ address_at fields.now place }
{
    let Some(text) = bare_at(fields, place) else {
        return Err(TextWhy::BadData);
    };
    read_address(text).ok_or(TextWhy::BadData)
}

// The character-string at a place.
#[tactic(auto, unfolding(crate::specs::Data::string_at))]
fn string_at(fields: &[Token], place: usize) -> Result<Text255, TextWhy>
    ensures { result ≡ string_at fields.now place }
{
    let Some(token) = token_at(fields, place) else {
        return Err(TextWhy::BadData);
    };
    read_string(token.text()).ok_or(TextWhy::BadData)
}

// One name.
#[tactic(auto, unfolding(crate::specs::Data::target_of))]
fn read_target(origin: &Name, fields: &[Token]) -> Result<Name, TextWhy>
    ensures { result ≡ target_of origin.now fields.now }
{
    let target = name_at(TextWhy::BadData, origin, fields, 0)?;
    ends_at(fields, 1)?;
    Ok(target)
}

// An IPv4 address.
#[tactic(auto, unfolding(crate::specs::Data::a_of))]
fn read_a(fields: &[Token]) -> Result<[u8; 4], TextWhy>
    ensures { result ≡ a_of fields.now }
{
    let address = quad_at(fields, 0)?;
    ends_at(fields, 1)?;
    Ok(address)
}

// An IPv6 address.
#[tactic(auto, unfolding(crate::specs::Data::aaaa_of))]
fn read_aaaa(fields: &[Token]) -> Result<[u8; 16], TextWhy>
    ensures { result ≡ aaaa_of fields.now }
{
    let address = address_at(fields, 0)?;
    ends_at(fields, 1)?;
    Ok(address)
}

// Two names, the serial, and four times.
#[tactic(auto, unfolding(crate::specs::Data::soa_of))]
fn read_soa(origin: &Name, fields: &[Token]) -> Result<Soa, TextWhy>
    ensures { result ≡ soa_of origin.now fields.now }
{
    let mname = name_at(TextWhy::BadData, origin, fields, 0)?;
    let rname = name_at(TextWhy::BadData, origin, fields, 1)?;
    let serial = u32_at(fields, 2)?;
    let refresh = time_at(fields, 3)?;
    let retry = time_at(fields, 4)?;
    let expire = time_at(fields, 5)?;
    let minimum = time_at(fields, 6)?;
    ends_at(fields, 7)?;
    Ok(Soa {
        mname,
        rname,
        serial,
        refresh,
        retry,
        expire,
        minimum,
    })
}

// A preference and an exchange.
#[tactic(auto, unfolding(crate::specs::Data::mx_of))]
fn read_mx(origin: &Name, fields: &[Token]) -> Result<Content, TextWhy>
    ensures value { result ≡ mx_of origin.now fields.now }
    ensures whole { IfOk result (λ content. IsTrue (is_whole content)) }
{
    let preference = u16_at(fields, 0)?;
    let exchange = name_at(TextWhy::BadData, origin, fields, 1)?;
    ends_at(fields, 2)?;
    Ok(Content::Mx(preference, exchange))
}

// A priority, a weight, a port and a target.
#[tactic(auto, unfolding(crate::specs::Data::srv_of))]
fn read_srv(origin: &Name, fields: &[Token]) -> Result<Content, TextWhy>
    ensures value { result ≡ srv_of origin.now fields.now }
    ensures whole { IfOk result (λ content. IsTrue (is_whole content)) }
{
    let priority = u16_at(fields, 0)?;
    let weight = u16_at(fields, 1)?;
    let port = u16_at(fields, 2)?;
    let target = name_at(TextWhy::BadData, origin, fields, 3)?;
    ends_at(fields, 4)?;
    Ok(Content::Srv(priority, weight, port, target))
}

// The six fields of a rule.
#[tactic(auto, unfolding(crate::specs::Data::naptr_of))]
fn read_naptr(origin: &Name, fields: &[Token]) -> Result<Content, TextWhy>
    ensures value { result ≡ rule_of origin.now fields.now }
    ensures whole { IfOk result (λ content. IsTrue (is_whole content)) }
{
    let order = u16_at(fields, 0)?;
    let preference = u16_at(fields, 1)?;
    let flags = string_at(fields, 2)?;
    let services = string_at(fields, 3)?;
    let regexp = string_at(fields, 4)?;
    let replacement = name_at(TextWhy::BadData, origin, fields, 5)?;
    ends_at(fields, 6)?;
    Ok(Content::Naptr(Naptr {
        order,
        preference,
        flags,
        services,
        regexp,
        replacement,
    }))
}

// The character-string of a token.
fn string_of(token: &Token) -> Result<Text255, TextWhy>
    ensures { result ≡ ok_or (string_of token.now.text) TextWhy.BadData }
{
    read_string(token.text()).ok_or(TextWhy::BadData)
}

// The character-strings of all tokens.
fn read_strings(alloc: Global, fields: &[Token]) -> Result<Texts, TextWhy>
    ensures { GivesOrMemory result (strings_of fields.now) }
{
    let mut texts = Texts::new(alloc);
    for token in fields {
        texts.push(string_of(token)?)?;
    }
    Ok(texts)
}

// One or more character-strings.
#[tactic(auto, unfolding(crate::specs::Data::txt_of))]
fn read_txt(alloc: Global, fields: &[Token]) -> Result<Texts, TextWhy>
    ensures value { GivesOrMemory result (txt_of fields.now) }
    ensures some { IfOk result (λ texts. 0 < length texts) }
{
    if fields.is_empty() {
        return Err(TextWhy::BadData);
    }
    let texts = read_strings(alloc, fields)?;
    Ok(texts)
}

/// The content that the data of a type stand for.
#[tactic(auto, unfolding(crate::specs::Data::content_of))]
pub(crate) fn read_content(
    alloc: Global,
    kind: Kind,
    origin: &Name,
    fields: &[Token],
) -> Result<Content, TextWhy>
    ensures value { GivesOrMemory result (content_of kind origin.now fields.now) }
    ensures whole { IfOk result (λ content. IsTrue (is_whole content)) }
{
    match kind {
        Kind::A => Ok(Content::A(read_a(fields)?)),
        Kind::Ns => Ok(Content::Ns(read_target(origin, fields)?)),
        Kind::Cname => Ok(Content::Cname(read_target(origin, fields)?)),
        Kind::Soa => Ok(Content::Soa(read_soa(origin, fields)?)),
        Kind::Ptr => Ok(Content::Ptr(read_target(origin, fields)?)),
        Kind::Mx => read_mx(origin, fields),
        Kind::Txt => Ok(Content::Txt(read_txt(alloc, fields)?)),
        Kind::Aaaa => Ok(Content::Aaaa(read_aaaa(fields)?)),
        Kind::Srv => read_srv(origin, fields),
        Kind::Naptr => read_naptr(origin, fields),
    }
}
