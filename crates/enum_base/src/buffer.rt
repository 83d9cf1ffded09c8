//! Bytes in a row of fixed size.
ghost use Rattle.std.specs.Prelude.{◌≡◌, ◌<◌, ◌≤◌, ◌+◌, ◌↔◌, [], ◌∷◌, ◌++◌, length, IsTrue};

use itoa::{Buffer as Digits, Integer};
use std::marker::Model;

/// At most `CAP` bytes, which take no memory beyond their row.
#[derive(Drop)]
pub struct Buffer<const CAP: usize> {
    row: [u8; CAP],
    len: usize,
}

impl<const CAP: usize> Model for Buffer<CAP> {
    ghost use Rattle.std.specs.Prelude.{List, ℕ, ◌≤◌, take};

    ghost Value = { List ℕ };

    ghost view = { λ b. take b.len b.row };

    ghost invariant = { λ b. b.len ≤ CAP };
}

impl<const CAP: usize> Buffer<CAP> {
    /// No bytes.
    pub fn new() -> Self
        ensures { result ≡ [] }
    {
        Buffer {
            row: [0; CAP],
            len: 0,
        }
    }

    /// The bytes.
    pub fn as_slice(&self) -> &[u8]
        ensures value { result.now ≡ self.now }
        ensures most { length self.now ≤ CAP }
    {
        &self.row[..self.len]
    }

    pub fn is_empty(&self) -> bool
        ensures { IsTrue result ↔ (self.now ≡ []) }
    {
        self.len == 0
    }

    /// Whether there is room for no more.
    pub fn is_full(&self) -> bool
        ensures { IsTrue result ↔ (length self.now ≡ CAP) }
    {
        self.len == CAP
    }

    /// Appends the byte.
    pub fn push(&mut self, byte: u8)
        requires { length self.old < CAP }
        ensures { self.new ≡ self.old ++ byte ∷ [] }
    {
        self.row[self.len] = byte;
        self.len += 1;
    }

    /// Appends the bytes.
    pub fn push_slice(&mut self, bytes: &[u8])
        requires { length self.old + length bytes.now ≤ CAP }
        ensures { self.new ≡ self.old ++ bytes.now }
    {
        let row = &mut self.row[..];
        row[self.len..self.len + bytes.len()].copy_from_slice(bytes);
        self.len += bytes.len();
    }

    /// Appends the number in decimal digits: at most 5 bytes of a `u16`, 10 of a `u32`, 20 of a `u64` or a `usize`.
    pub fn push_number<I: Integer>(&mut self, number: I)
        requires { length self.old + I.MAX_STR_LEN ≤ CAP }
        ensures value { self.new ≡ self.old ++ I.text number }
        ensures most { length self.new ≤ length self.old + I.MAX_STR_LEN }
    {
        let mut digits = Digits::new();
        self.push_slice(digits.format(number).as_bytes());
    }
}
