//! Domain names, as one row of wire bytes.
ghost use Rattle.std.specs.Prelude.{◌≡◌, ◌<◌, ◌≤◌, ◌+◌, ◌↔◌, [], ◌∷◌, ◌++◌, length, take, drop, IsTrue};
ghost use Rattle.enum_base.specs.Padding.{padded};
ghost use Rattle.dns_name.specs.Name.{label_wire};

use crate::fault::NameFault;
use crate::order::cmp_folded_bytes;
use enum_base::{fold_byte, same_folded};
use std::cmp::Ordering;
use std::marker::Model;

/// A domain name of at most 255 bytes on the wire (RFC 1035, 2.3.4). Contracts see its labels, the
/// leftmost first.
#[derive(Clone, Copy, Debug, PartialEq, Eq)]
pub struct Name {
    row: [u8; 255],
    len: u8,
}

impl Model for Name {
    ghost use Rattle.std.specs.Prelude.{List, ℕ, length, take};
    ghost use Rattle.std.proofs.Common.{ap, ◌∙◌};
    ghost use Rattle.enum_base.specs.Padding.{padded};

    ghost Value = { List (List ℕ) };

    ghost use Rattle.dns_name.specs.Name.{labels_of, wire_of, IsRow};

    ghost view = { λ n. labels_of (take n.len n.row) };

    ghost invariant = { λ n. IsRow n.len n.row };

    ghost inverse = { λ labels. record { row = padded 255 (wire_of labels); len = length (wire_of labels) } };

    ghost inverse_ok = { λ n h i. record {
      row = (ap (padded 255) h.spelt.wire ∙ h.rest) i;
      len = (ap length h.spelt.wire ∙ h.front) i;
    } };
}

impl Name {
    ghost use Rattle.dns_name.specs.Name.{wire_of, labels_of, folded_labels, folded_order, name_within, parent_of, star, AreSame, IsBelow, IsName, IsWire};
    ghost use Rattle.dns_name.specs.Reading.{fitting, while_fits};

    /// The root.
    pub fn root() -> Name
        ensures { result ≡ [] }
    {
        Name {
            row: [0; 255],
            len: 1,
        }
    }

    /// The wire form, without compression (RFC 1035, 3.1).
    pub fn wire(&self) -> &[u8]
        ensures value { result.now ≡ wire_of self.now }
        ensures name { IsName self.now }
    {
        &self.row[..self.len as usize]
    }

    /// The name with `A` to `Z` made small (RFC 4343).
    pub fn fold(&self) -> Name
        ensures { result ≡ folded_labels self.now }
    {
        let mut row = self.row;
        for byte in row.iter_mut() {
            *byte = fold_byte(*byte);
        }
        Name { row, len: self.len }
    }

    /// Whether the two are equal but for the case of ASCII letters (RFC 4343).
    pub fn same(&self, other: &Name) -> bool
        ensures { IsTrue result ↔ AreSame self.now other.now }
    {
        same_folded(self.wire(), other.wire())
    }

    /// The order of names: by their wire bytes, with `A` to `Z` as small letters. A label's length comes before its bytes.
    pub fn cmp_folded(&self, other: &Name) -> Ordering
        ensures { result ≡ folded_order self.now other.now }
    {
        cmp_folded_bytes(self.wire(), other.wire())
    }

    /// The name without its first label; the root has none (RFC 1034, 3.1).
    pub fn parent(&self) -> Option<Name>
        ensures { result ≡ parent_of self.now }
    {
        let wire = self.wire();
        if wire.len() == 1 {
            return None;
        }
        Some(Name::of_wire(split_first(wire).1))
    }

    /// The name with the label `*` before it, as wildcards have it (RFC 4592, 2.1.1).
    ///
    /// # Errors
    /// `NameTooLong` where it would pass 255 bytes.
    pub fn prepend_star(&self) -> Result<Name, NameFault>
        ensures { result ≡ fitting (name_within (star ∷ self.now)) }
    {
        let mut name = Name::of_label(b"*");
        if name.append(self) {
            Ok(name)
        } else {
            Err(NameFault::NameTooLong)
        }
    }

    /// Whether this name is the other or lies below it, without regard to case.
    pub fn is_below(&self, other: &Name) -> bool
        ensures { IsTrue result ↔ IsBelow self.now other.now }
    {
        let top = other.wire();
        let mut rest = self.wire();
        while rest.len() > top.len() {
            rest = split_first(rest).1;
        }
        same_folded(rest, top)
    }

    /// The name of these wire bytes.
    pub(crate) fn of_wire(wire: &[u8]) -> Name
        requires { IsWire wire.now }
        ensures { result ≡ labels_of wire.now }
    {
        Name {
            row: row_of(wire, &[]),
            len: wire.len() as u8,
        }
    }

    /// The name of one label.
    pub(crate) fn of_label(label: &[u8]) -> Name
        requires some { 0 < length label.now }
        requires most { length label.now ≤ 63 }
        ensures { result ≡ label.now ∷ [] }
    {
        Name {
            row: row_of(&[label.len() as u8], label),
            len: label.len() as u8 + 2,
        }
    }

    /// Appends the label, and answers whether the name has room for it.
    pub(crate) fn append_label(&mut self, label: &[u8]) -> bool
        requires some { 0 < length label.now }
        requires most { length label.now ≤ 63 }
        ensures { while_fits result self.new ≡ name_within (self.old ++ label.now ∷ []) }
    {
        let front = self.len as usize - 1;
        if front + label.len() + 2 > 255 {
            return false;
        }
        put_label(&mut self.row, front, label);
        self.len = (front + label.len() + 2) as u8;
        true
    }

    /// Appends the labels of the other name, and answers whether the name has room for them.
    pub(crate) fn append(&mut self, other: &Name) -> bool
        ensures { while_fits result self.new ≡ name_within (self.old ++ other.now) }
    {
        let front = self.len as usize - 1;
        let back = other.wire();
        if front + back.len() > 255 {
            return false;
        }
        put(&mut self.row, front, back);
        self.len = (front + back.len()) as u8;
        true
    }
}

// Copies the bytes into the row from that cell on.
fn put(row: &mut [u8], at: usize, bytes: &[u8])
    requires { at + length bytes.now ≤ length row.old }
    ensures { row.new ≡ take at row.old ++ (bytes.now ++ drop (at + length bytes.now) row.old) }
{
    row[at..at + bytes.len()].copy_from_slice(bytes);
}

// Writes the wire form of the label into the row from that cell on.
fn put_label(row: &mut [u8], at: usize, label: &[u8])
    requires size { length label.now < 256 }
    requires room { at + length label.now + 1 ≤ length row.old }
    ensures { row.new ≡ take at row.old ++ (label_wire label.now ++ drop (at + length label.now + 1) row.old) }
{
    row[at] = label.len() as u8;
    put(row, at + 1, label);
}

// The bytes of both in a row, and zeros after them.
fn row_of(front: &[u8], back: &[u8]) -> [u8; 255]
    requires { length front.now + length back.now ≤ 255 }
    ensures { result ≡ padded 255 (front.now ++ back.now) }
{
    let mut row = [0; 255];
    put(&mut row, 0, front);
    put(&mut row, front.len(), back);
    row
}

ghost use Rattle.dns_name.specs.Name.{IsWire, labels_of};

/// The first label of wire bytes that are not the root's, and the wire bytes after it.
pub(crate) fn split_first(wire: &[u8]) -> (&[u8], &[u8])
    requires name { IsWire wire.now }
    requires more { 1 < length wire.now }
    ensures labels { labels_of wire.now ≡ result.0.now ∷ labels_of result.1.now }
    ensures rest { IsWire result.1.now }
    ensures sum { length result.0.now + length result.1.now + 1 ≡ length wire.now }
{
    let size = wire[0] as usize;
    (&wire[1..size + 1], &wire[size + 1..])
}
