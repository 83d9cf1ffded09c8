//! Telephone numbers and their keys.
ghost use Rattle.std.specs.Prelude.{◌≡◌, ◌<◌, ◌≤◌, ◌↔◌, ℕ, List, [], ◌∷◌, length, IsTrue, IfSome, IfOk, IfErr, IsErr, OnOk, Some, Ok, Err, slice_get};
ghost use Rattle.std.specs.Char.{is_ascii_digit};
ghost use Rattle.dns_name.specs.Name.{wire_of, AreSame};
ghost use Rattle.enum_app.specs.Digits.{AreDigits};
ghost use Rattle.enum_app.specs.FaultWords.{number_fault};
ghost use Rattle.enum_app.specs.Number.{IsNumber, HasNumberFault, digits_of, key_labels, labels_wire, e164_arpa, is_separator, plus};

use dns_name::{Name, NameFault};
use enum_base::{FaultWords, Text255, fault_at, fault_named};
use std::marker::Model;

/// The most digits of a number (RFC 6116, section 3.2).
const MOST_DIGITS: usize = 15;

/// Why a text is no number; places are counted in bytes from 0.
#[derive(Clone, Copy, Debug, PartialEq, Eq)]
pub enum NumberFault {
    /// It does not begin with a plus sign.
    NoPlus,
    /// It has no digit.
    NoDigit,
    /// The sixteenth digit is at this place.
    TooLong { at: usize },
    /// The first byte that is neither digit nor separator is at this place.
    BadChar { at: usize },
}

impl NumberFault {
    /// How it is printed: its name, and its place where it has one.
    pub fn words(&self) -> FaultWords
        ensures { result ≡ number_fault self.now }
    {
        match *self {
            NumberFault::NoPlus => fault_named("NoPlus"),
            NumberFault::NoDigit => fault_named("NoDigit"),
            NumberFault::TooLong { at } => fault_at("TooLong", at),
            NumberFault::BadChar { at } => fault_at("BadChar", at),
        }
    }
}

/// A telephone number. Contracts see its digits, 1 to 15 of them (RFC 6116, section 3.2).
#[derive(Clone, Copy, Debug, PartialEq, Eq)]
pub struct Number {
    row: [u8; 15],
    len: u8,
}

impl Model for Number {
    ghost use Rattle.std.specs.Prelude.{List, ℕ, length, take};
    ghost use Rattle.enum_base.specs.Padding.{padded};
    ghost use Rattle.enum_app.specs.Digits.{IsDigits};

    ghost Value = { List ℕ };

    ghost view = { λ n. take n.len n.row };

    ghost invariant = { λ n. IsDigits n.len n.row };

    ghost inverse = { λ digits. record { row = padded 15 digits; len = length digits } };

    ghost inverse_ok = { λ n h i. record { row = h.padding.rest i; len = h.padding.front i } };
}

impl Number {
    /// Reads a plus sign and then at most fifteen digits, with spaces and `-`, `.`, `(`, `)` anywhere
    /// between and around them.
    pub fn parse(text: &[u8]) -> Result<Number, NumberFault>
        ensures number { IfOk result (λ number. IsNumber text.now) }
        ensures digits { IfOk result (λ number. number ≡ digits_of text.now) }
        ensures fault { IfErr result (HasNumberFault text.now) }
        // No other answer is one.
        ensures each_number { IsNumber text.now → result ≡ Ok (digits_of text.now) }
        ensures each_fault { (fault : NumberFault) → HasNumberFault text.now fault → result ≡ Err fault }
    {
        parse_inner(text)
    }

    /// The number whose key under that apex is that name, without regard to case (RFC 4343), or `None`
    /// where the name is no number's key.
    pub fn from_key(name: &Name, apex: &Name) -> Option<Number>
        ensures some { IfSome result (λ number. AreSame name.now (key_labels number apex.now)) }
        ensures digits { IfSome result (λ number. AreDigits number) }
        // What has that key is given; so there is one at most, and `None` where there is none.
        ensures only { (digits : List ℕ) → AreDigits digits → AreSame name.now (key_labels digits apex.now) → result ≡ Some digits }
    {
        let (folded, top) = (name.fold(), apex.fold());
        match folded.wire().strip_suffix(top.wire()) {
            Some(labels) => number_of(labels),
            None => None,
        }
    }

    /// The digits, first to last.
    pub fn digits(&self) -> &[u8]
        ensures value { result.now ≡ self.now }
        ensures digits { AreDigits self.now }
    {
        &self.row[..self.len as usize]
    }

    /// The application unique string: `+` and the digits (RFC 6116, section 3.1).
    pub fn aus(&self) -> Text255
        ensures value { result ≡ plus ∷ self.now }
        ensures digits { AreDigits self.now }
    {
        let digits = self.digits();
        let mut bytes = [b'+'; 16];
        bytes[1..digits.len() + 1].copy_from_slice(digits);
        Text255::from_bytes(&bytes[..digits.len() + 1]).unwrap()
    }

    /// The domain of the number under an apex: its digits, the last one first, each a label (RFC 6116,
    /// section 3.2). `NameTooLong` exactly where it would pass 255 bytes.
    pub fn key(&self, apex: &Name) -> Result<Name, NameFault>
        ensures key { IfOk result (λ name. name ≡ key_labels self.now apex.now) }
        ensures fault { IfErr result (λ fault. fault ≡ NameFault.NameTooLong) }
        ensures too_long { IsErr result ↔ (255 < length (wire_of (key_labels self.now apex.now))) }
        ensures digits { AreDigits self.now }
    {
        let mut name = *apex;
        for digit in self.digits() {
            name = with_digit(*digit, &name)?;
        }
        Ok(name)
    }
}

// The number that a text spells, or its first fault by place.
fn parse_inner(text: &[u8]) -> Result<Number, NumberFault>
    ensures number { IfOk result (λ number. IsNumber text.now) }
    ensures digits { IfOk result (λ number. number ≡ digits_of text.now) }
    ensures fault { IfErr result (HasNumberFault text.now) }
{
    if !has_sign(text) {
        return Err(NumberFault::NoPlus);
    }
    let mut row = [0; MOST_DIGITS];
    let mut len = 0;
    for at in 1..text.len() {
        let byte = text[at];
        if byte.is_ascii_digit() {
            if len == MOST_DIGITS {
                return Err(NumberFault::TooLong { at });
            }
            row[len] = byte;
            len += 1;
        } else if !is_separator(byte) {
            return Err(NumberFault::BadChar { at });
        }
    }
    if len == 0 {
        return Err(NumberFault::NoDigit);
    }
    Ok(Number {
        row,
        len: len as u8,
    })
}

fn has_sign(text: &[u8]) -> bool
    ensures { IsTrue result ↔ (slice_get text.now 0 ≡ Some plus) }
{
    text.first() == Some(&b'+')
}

// The number whose digits, the last one first, are the labels of these wire bytes.
fn number_of(labels: &[u8]) -> Option<Number>
    ensures some { IfSome result (λ number. labels.now ≡ labels_wire number) }
    ensures digits { IfSome result (λ number. AreDigits number) }
    ensures only { (digits : List ℕ) → AreDigits digits → labels.now ≡ labels_wire digits → result ≡ Some digits }
{
    let mut row = [0; MOST_DIGITS];
    let mut len = 0;
    let mut rest = labels;
    while let [more @ .., size, digit] = rest {
        if *size != 1 || !digit.is_ascii_digit() || len == MOST_DIGITS {
            return None;
        }
        row[len] = *digit;
        len += 1;
        rest = more;
    }
    if !rest.is_empty() || len == 0 {
        return None;
    }
    Some(Number {
        row,
        len: len as u8,
    })
}

/// The domain under which telephone numbers stand, `e164.arpa.` (RFC 6116, section 1.2).
pub fn default_apex() -> Name
    ensures { result ≡ e164_arpa }
{
    match Name::from_text(b"e164.arpa.", None) {
        Ok(apex) => apex,
        Err(_) => unreachable!(),
    }
}

// The name with one digit as a label in front.
fn with_digit(digit: u8, name: &Name) -> Result<Name, NameFault>
    requires { IsTrue (is_ascii_digit digit) }
    ensures key { IfOk result (λ longer. longer ≡ (digit ∷ []) ∷ name.now) }
    ensures fits { OnOk result (length (wire_of ((digit ∷ []) ∷ name.now)) ≤ 255) }
    ensures too_long { IfErr result (λ fault. (fault ≡ NameFault.NameTooLong) × (255 < length (wire_of ((digit ∷ []) ∷ name.now)))) }
{
    Name::from_text(&[digit], Some(name))
}

fn is_separator(byte: u8) -> bool
    ensures { result ≡ is_separator byte }
{
    matches!(byte, b' ' | b'(' | b')' | b'-' | b'.')
}
