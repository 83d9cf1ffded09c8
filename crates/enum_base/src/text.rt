//! Texts of at most 255 bytes, in a row of fixed length.
ghost use Rattle.std.specs.Prelude.{◌≡◌, ◌<◌, ◌≤◌, ◌↔◌, length, IsNone, IfSome};

use std::marker::Model;

/// At most 255 bytes.
#[derive(Clone, Copy, Debug, PartialEq, Eq)]
pub struct Text255 {
    row: [u8; 255],
    len: u8,
}

impl Model for Text255 {
    ghost use Rattle.std.specs.Prelude.{List, ℕ, length, take};
    ghost use Rattle.enum_base.specs.Padding.{padded, IsPadded};

    ghost Value = { List ℕ };

    ghost view = { λ t. take t.len t.row };

    ghost invariant = { λ t. IsPadded 255 t.len t.row };

    ghost inverse = { λ bytes. record { row = padded 255 bytes; len = length bytes } };

    ghost inverse_ok = { λ t h i. record { row = h.rest i; len = h.front i } };
}

impl Text255 {
    /// These bytes, or `None` where they are more than 255.
    pub fn from_bytes(bytes: &[u8]) -> Option<Text255>
        ensures none { IsNone result ↔ (255 < length bytes.now) }
        ensures some { IfSome result (λ text. text ≡ bytes.now) }
    {
        if bytes.len() > 255 {
            return None;
        }
        let mut row = [0; 255];
        row[..bytes.len()].copy_from_slice(bytes);
        Some(Text255 {
            row,
            len: bytes.len() as u8,
        })
    }

    /// The bytes.
    pub fn as_bytes(&self) -> &[u8]
        ensures value { result.now ≡ self.now }
        ensures short { length self.now ≤ 255 }
    {
        &self.row[..self.len as usize]
    }
}
