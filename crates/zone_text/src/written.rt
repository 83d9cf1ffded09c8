//! The fields of records as they are written.
ghost use Rattle.std.specs.Prelude.{◌≡◌, ◌<◌, ◌≤◌, ◌+◌, ◌++◌, length, take, decimal, is_some, IsTrue, OnOk, OnErr};
ghost use Rattle.std.specs.Char.{digit_char};
ghost use Rattle.std.specs.Net.Text.{hex, leading_zero_digits, ipv4_text};
ghost use Rattle.dns_name.specs.Text.{text_of};
ghost use Rattle.rdata_field.specs.Strings.{quoted};
ghost use Rattle.zone_text.specs.FieldsText.{soa_text, mx_text, srv_text, strings_text, aaaa_text, fields_text};
ghost use Rattle.zone_text.specs.Laws.{type_of};

use dns_name::Name;
use dns_wire::{Content, Soa};
use enum_base::{Buffer, Bytes, MemoryFault, Text255};
use rdata_field::quoted;
use std::net::Ipv6Addr;

// Two names of at most 1,024 bytes and five numbers of at most ten digits, each after a mark: an SOA record has the most.
type FieldsText = Buffer<2105>;

/// Appends the fields of a record as its line in a zone text has them, with one space between them (RFC 1035, 5.1): numbers
/// in decimal, times in seconds, names as they stand, character-strings in quotes, an IPv6 address in eight groups of small
/// hexadecimal digits without leading zeros.
///
/// The content is of one of the ten types, so neither options nor bytes as they stand.
///
/// # Errors
/// Out of memory; `out` is then as it was.
pub fn write_fields(content: &Content, out: &mut Bytes) -> Result<(), MemoryFault>
    requires { IsTrue (is_some (type_of content.now)) }
    ensures ok { OnOk result (out.new ≡ out.old ++ fields_text content.now) }
    ensures err { OnErr result (out.new ≡ out.old) }
{
    match content {
        Content::A(address) => out.push_slice(quad_text(address).as_slice()),
        Content::Ns(name) | Content::Cname(name) | Content::Ptr(name) => name.to_text(out),
        Content::Soa(soa) => out.push_slice(soa_text(soa).as_slice()),
        Content::Mx(preference, exchange) => {
            out.push_slice(mx_text(*preference, exchange).as_slice())
        }
        Content::Txt(texts) => write_strings(texts.as_slice(), out),
        Content::Aaaa(address) => out.push_slice(aaaa_text(address).as_slice()),
        Content::Srv(priority, weight, port, target) => {
            out.push_slice(srv_text(*priority, *weight, *port, target).as_slice())
        }
        Content::Naptr(rule) => rule.to_text(out),
        Content::Opt(_) | Content::Raw(_) => Ok(()),
    }
}

// Appends a number after a mark of at most one byte.
fn push_number(text: &mut FieldsText, mark: &[u8], number: u32)
    requires room { length text.old + 11 ≤ 2105 }
    requires mark { length mark.now ≤ 1 }
    ensures value { text.new ≡ text.old ++ mark.now ++ decimal number }
    ensures size { length text.new ≤ length text.old + 11 }
{
    text.push_slice(mark);
    text.push_number(number);
}

// Appends a name after a mark of at most one byte.
fn push_name(text: &mut FieldsText, mark: &[u8], name: &Name)
    requires room { length text.old + 1025 ≤ 2105 }
    requires mark { length mark.now ≤ 1 }
    ensures value { text.new ≡ text.old ++ mark.now ++ text_of name.now }
    ensures size { length text.new ≤ length text.old + 1025 }
{
    text.push_slice(mark);
    text.push_slice(name.text().as_slice());
}

// Four decimal numbers with dots between them.
fn quad_text(address: &[u8; 4]) -> FieldsText
    ensures { result ≡ ipv4_text address.now }
{
    let [first, second, third, fourth] = *address;
    let mut text = FieldsText::new();
    push_number(&mut text, b"", u32::from(first));
    push_number(&mut text, b".", u32::from(second));
    push_number(&mut text, b".", u32::from(third));
    push_number(&mut text, b".", u32::from(fourth));
    text
}

// Two names, the serial and four times.
fn soa_text(soa: &Soa) -> FieldsText
    ensures { result ≡ soa_text soa.now }
{
    let mut text = FieldsText::new();
    push_name(&mut text, b"", &soa.mname);
    push_name(&mut text, b" ", &soa.rname);
    push_number(&mut text, b" ", soa.serial);
    push_number(&mut text, b" ", soa.refresh);
    push_number(&mut text, b" ", soa.retry);
    push_number(&mut text, b" ", soa.expire);
    push_number(&mut text, b" ", soa.minimum);
    text
}

// A preference and an exchange.
fn mx_text(preference: u16, exchange: &Name) -> FieldsText
    ensures { result ≡ mx_text preference exchange.now }
{
    let mut text = FieldsText::new();
    push_number(&mut text, b"", u32::from(preference));
    push_name(&mut text, b" ", exchange);
    text
}

// A priority, a weight, a port and a target.
fn srv_text(priority: u16, weight: u16, port: u16, target: &Name) -> FieldsText
    ensures { result ≡ srv_text priority weight port target.now }
{
    let mut text = FieldsText::new();
    push_number(&mut text, b"", u32::from(priority));
    push_number(&mut text, b" ", u32::from(weight));
    push_number(&mut text, b" ", u32::from(port));
    push_name(&mut text, b" ", target);
    text
}

// Eight groups in hexadecimal digits with colons between them.
fn aaaa_text(address: &[u8; 16]) -> FieldsText
    ensures { result ≡ aaaa_text address.now }
{
    let groups = Ipv6Addr::from_octets(*address).segments();
    let mut text = FieldsText::new();
    push_group(&mut text, b"", groups[0]);
    for group in &groups[1..] {
        push_group(&mut text, b":", *group);
    }
    text
}

// Appends a group in small hexadecimal digits without leading zeros, after a mark of at most one byte.
#[tactic(auto, unfolding(std::specs::Net::Text::hex))]
fn push_group(text: &mut FieldsText, mark: &[u8], group: u16)
    requires room { length text.old + 5 ≤ 2105 }
    requires mark { length mark.now ≤ 1 }
    ensures value { text.new ≡ text.old ++ mark.now ++ hex group }
    ensures size { length text.new ≤ length text.old + 5 }
{
    let digits = [
        digit_char(group / 0x1000),
        digit_char(group / 0x100 % 16),
        digit_char(group / 0x10 % 16),
        digit_char(group % 16),
    ];
    text.push_slice(mark);
    text.push_slice(&digits[leading_zero_digits(group)..]);
}

// A small hexadecimal digit.
fn digit_char(digit: u16) -> u8
    requires { digit < 16 }
    ensures { result ≡ digit_char digit }
{
    if digit < 10 {
        b'0' + digit as u8
    } else {
        b'a' + (digit - 10) as u8
    }
}

// How many of the four digits of a group are leading zeros; the last is none.
fn leading_zero_digits(group: u16) -> usize
    ensures value { result ≡ leading_zero_digits group }
    ensures within { result < 4 }
{
    match group {
        0x1000.. => 0,
        0x100.. => 1,
        0x10.. => 2,
        _ => 3,
    }
}

// Appends character-strings in quotes with one space between them, all or none.
fn write_strings(strings: &[Text255], out: &mut Bytes) -> Result<(), MemoryFault>
    ensures ok { OnOk result (out.new ≡ out.old ++ strings_text strings.now) }
    ensures err { OnErr result (out.new ≡ out.old) }
{
    let held = out.as_slice().len();
    let written = append_strings(strings, out);
    if written.is_err() {
        out.truncate(held);
    }
    written
}

// Appends character-strings in quotes with one space between them, while there is memory.
fn append_strings(strings: &[Text255], out: &mut Bytes) -> Result<(), MemoryFault>
    ensures ok { OnOk result (out.new ≡ out.old ++ strings_text strings.now) }
    ensures front { take (length out.old) out.new ≡ out.old }
{
    let [first, rest @ ..] = strings else {
        return Ok(());
    };
    append_string(b"", first, out)?;
    for string in rest {
        append_string(b" ", string, out)?;
    }
    Ok(())
}

// Appends a character-string in quotes after a mark of at most one byte.
fn append_string(mark: &[u8], string: &Text255, out: &mut Bytes) -> Result<(), MemoryFault>
    requires { length mark.now ≤ 1 }
    ensures ok { OnOk result (out.new ≡ out.old ++ (mark.now ++ quoted string.now)) }
    ensures err { OnErr result (out.new ≡ out.old) }
{
    let mut text = Buffer::<1023>::new();
    text.push_slice(mark);
    text.push_slice(quoted(string).as_slice());
    out.push_slice(text.as_slice())
}
