//! Rows: places of a text as bits.
ghost use Rattle.std.specs.Prelude.{◌≡◌, ℕ, ◌+◌, ◌-◌, ◌%◌, ◌<◌, ◌≤◌, ◌↔◌, IsTrue};
ghost use Rattle.std.specs.Int.{bit_at};
ghost use Rattle.submatch.specs.Rows.{Has, AddsPlaces, AreEnds};

use std::marker::Model;

/// Places of a text of at most 255 bytes, a bit for each.
#[derive(Clone, Copy, Drop)]
pub(crate) struct Row {
    words: [u64; 4],
}

impl Model for Row {
    ghost use Rattle.std.specs.Prelude.{◌≡◌, length};
    ghost use Rattle.submatch.specs.Rows.{Row as Words};

    ghost Value = { Words };

    ghost view = { λ r. r.words };

    ghost inverse = { λ ws. record { words = ws } };

    ghost invariant = { λ r. length r.words ≡ 4 };
}

impl Row {
    /// No places.
    pub(crate) fn new() -> Row
        ensures { AreEnds (λ j. ⊥) result }
    {
        Row { words: [0; 4] }
    }

    /// This place alone where something holds, and else none.
    pub(crate) fn one(holds: bool, place: u16) -> Row
        requires { place < 256 }
        ensures { AreEnds (λ j. IsTrue holds × (place ≡ j)) result }
    {
        let mut row = Row::new();
        if holds {
            row.add(place);
        }
        row
    }

    /// Whether it has the place.
    pub(crate) fn has(&self, place: u16) -> bool
        requires { place < 256 }
        ensures { IsTrue result ↔ Has self.now place }
    {
        self.words[usize::from(place / 64)] >> (place % 64) & 1 == 1
    }

    /// The bits of the places from this one on, to the last of the same word.
    pub(crate) fn word_from(&self, place: u16) -> u64
        requires { place < 256 }
        ensures { (bit : ℕ) → (bit_at result bit ≡ 1) ↔ ((bit < 64 - place % 64) × Has self.now (place + bit)) }
    {
        bits_from(self.words[usize::from(place / 64)], place % 64)
    }

    /// The next place, from this one on, that it has and another row does not, or the last place of the word before that.
    pub(crate) fn next_new(&self, other: &Row, place: u16) -> u16
        requires { place < 256 }
        ensures later { place ≤ result }
        ensures within { result < 256 }
        ensures passed { (k : ℕ) → place ≤ k → k < result → Has self.now k → Has other.now k }
    {
        let most = u32::from(63 - place % 64);
        let new = self.word_from(place) & !other.word_from(place);
        place + new.trailing_zeros().min(most) as u16
    }

    /// Adds the place.
    pub(crate) fn add(&mut self, place: u16)
        requires { place < 256 }
        ensures { AddsPlaces (λ j. place ≡ j) self.old self.new }
    {
        self.words[usize::from(place / 64)] |= 1 << (place % 64);
    }

    /// Adds the places of another row.
    pub(crate) fn join(&mut self, other: &Row)
        ensures { AddsPlaces (Has other.now) self.old self.new }
    {
        self.words = [
            self.words[0] | other.words[0],
            self.words[1] | other.words[1],
            self.words[2] | other.words[2],
            self.words[3] | other.words[3],
        ];
    }
}

// The bits of a word from this one on.
fn bits_from(word: u64, from: u16) -> u64
    requires { from < 64 }
    ensures { (bit : ℕ) → (bit_at result bit ≡ 1) ↔ ((from + bit < 64) × (bit_at word (from + bit) ≡ 1)) }
{
    word >> from
}
