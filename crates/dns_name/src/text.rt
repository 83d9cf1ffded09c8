//! Names as text.
ghost use Rattle.std.specs.Prelude.{◌≡◌, ◌<◌, ◌≤◌, ◌++◌, ◌↔◌, List, ℕ, [], length, OnOk, OnErr, option_and_then};
ghost use Rattle.dns_name.specs.Name.{wire_of, name_within};
ghost use Rattle.dns_name.specs.Reading.{name_of, reading_of, with_label, while_fits, as_reading};
ghost use Rattle.dns_name.specs.Text.{labels_lent};

use crate::fault::NameFault;
use crate::label::Label;
use crate::name::{Name, split_first};
use crate::piece::Piece;
use crate::written::{NameText, push_label};
use enum_base::{Bytes, MemoryFault};

impl Name {
    ghost use Rattle.dns_name.specs.Text.{text_of, StandsFor, IsRelative, HasEmptyLabel, HasLongLabel, HasBadEscape};

    /// The name that a text stands for (RFC 1035, 5.1). Labels are separated by `.`; `\DDD` is the byte of
    /// that decimal number, `\X` with X no digit is X; a text without a last `.` has the labels of the
    /// origin appended. Of several faults the first by place is told, then `NoOrigin`, then `NameTooLong`.
    pub fn from_text(text: &[u8], origin: Option<&Name>) -> Result<Name, NameFault>
        ensures value { result ≡ name_of text.now (labels_lent origin.entry) }

        // Which texts are accepted.
        ensures accepted { (labels : List (List ℕ)) → (result ≡ Ok labels)
            ↔ (StandsFor text.now (labels_lent origin.entry) labels × (length (wire_of labels) ≤ 255)) }

        // When each fault is told, and its place.
        ensures empty_label { (at : ℕ) → (result ≡ Err (NameFault.EmptyLabel at)) ↔ HasEmptyLabel text.now at }
        ensures label_too_long { (at : ℕ) → (result ≡ Err (NameFault.LabelTooLong at)) ↔ HasLongLabel text.now at }
        ensures bad_escape { (at : ℕ) → (result ≡ Err (NameFault.BadEscape at)) ↔ HasBadEscape text.now at }
        ensures no_origin { (result ≡ Err NameFault.NoOrigin)
            ↔ ((labels_lent origin.entry ≡ None) × ((own : List (List ℕ)) × IsRelative text.now own)) }
        ensures name_too_long { (result ≡ Err NameFault.NameTooLong)
            ↔ ((labels : List (List ℕ)) × StandsFor text.now (labels_lent origin.entry) labels × (255 < length (wire_of labels))) }
    {
        parse(text, origin)
    }

    /// The text of the name: each label with a `.` after it, or `.` alone for the root.
    pub fn text(&self) -> NameText
        ensures { result ≡ text_of self.now }
    {
        let mut text = NameText::new();
        let mut rest = self.wire();
        if rest.len() == 1 {
            text.push(b'.');
        }
        while rest.len() > 1 {
            let (label, after) = split_first(rest);
            push_label(&mut text, label);
            rest = after;
        }
        text
    }

    /// Appends the text of the name.
    pub fn to_text(&self, out: &mut Bytes) -> Result<(), MemoryFault>
        ensures ok { OnOk result (out.new ≡ out.old ++ text_of self.now) }
        ensures err { OnErr result (out.new ≡ out.old) }
    {
        out.push_slice(self.text().as_slice())
    }
}

// What a text stands for under an origin.
fn parse(text: &[u8], origin: Option<&Name>) -> Result<Name, NameFault>
    ensures { result ≡ name_of text.now (labels_lent origin.entry) }
{
    let mut name = Name::root();
    let read = read(text, &mut name)?;
    let fits = if read.absolute {
        read.fits
    } else {
        let Some(origin) = origin else {
            return Err(NameFault::NoOrigin);
        };
        joined(read.fits, &mut name, origin)
    };
    if fits {
        Ok(name)
    } else {
        Err(NameFault::NameTooLong)
    }
}

// What was read of a text.
#[derive(Clone, Copy)]
struct Own {
    // Whether its labels fit a name.
    fits: bool,
    absolute: bool,
}

// The labels of both, while they fit a name.
fn joined(fits: bool, name: &mut Name, back: &Name) -> bool
    ensures { while_fits result name.new ≡ option_and_then (λ labels. name_within (labels ++ back.now)) (while_fits fits name.old) }
{
    fits && name.append(back)
}

// One label more, while the name fits.
fn extended(fits: bool, name: &mut Name, label: &Label) -> bool
    requires { 0 < length label.now }
    ensures { while_fits result name.new ≡ with_label (while_fits fits name.old) label.now }
{
    fits && name.append_label(label.as_slice())
}

// Appends the labels of a text to the root while they fit a name, and tells whether they do and whether the text is absolute.
fn read(text: &[u8], name: &mut Name) -> Result<Own, NameFault>
    requires { name.old ≡ [] }
    ensures { as_reading name.new result ≡ reading_of text.now }
{
    let absolute = true;
    let mut fits = true;
    if text == b".".as_slice() {
        return Ok(Own { fits, absolute });
    }
    let mut label = Label::new();
    let mut start = 0;
    let mut at = 0;
    while at < text.len() {
        match Piece::first(text[at], &text[at + 1..]) {
            Piece::Broken => return Err(NameFault::BadEscape { at }),
            Piece::Dot if label.is_empty() => return Err(NameFault::EmptyLabel { at: start }),
            Piece::Dot => {
                fits = extended(fits, name, &label);
                label = Label::new();
                at += 1;
                start = at;
            }
            Piece::Byte(_, _) if label.is_full() => {
                return Err(NameFault::LabelTooLong { at: start });
            }
            Piece::Byte(byte, more) => {
                label.push(byte);
                at += more + 1;
            }
        }
    }
    if !label.is_empty() {
        let absolute = false;
        let fits = extended(fits, name, &label);
        Ok(Own { fits, absolute })
    } else if start == 0 {
        Err(NameFault::EmptyLabel { at: 0 })
    } else {
        Ok(Own { fits, absolute })
    }
}
