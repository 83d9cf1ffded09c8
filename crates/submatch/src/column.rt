//! Columns: for each place of a text a row, the ends of what begins there.
ghost use Rattle.std.specs.Prelude.{◌≡◌, ℕ, ◌+◌, ◌<◌, ◌≤◌, ◌↔◌, ◌++◌, ◌∷◌, [], IsTrue, length, OnOk, IfOk};
ghost use Rattle.std.specs.Int.{bit_at};
ghost use Rattle.std.specs.List.{slice_set};
ghost use Rattle.submatch.specs.Rows.{Has, Leads, LeadsFrom, LeadsFromBit, AreEnds, AddsPlaces, IsClosedFrom, IsClosedOver};

use super::row::Row;
use enum_base::{MemoryFault, Steps};
use std::alloc::Allocator;
use std::marker::Model;
use std::sync::ledger::Ledger;

/// A row for each place of a text, or none where nothing can ever match.
#[derive(Drop)]
pub(crate) struct Column<A: Allocator> {
    rows: Vec<Row, A>,
}

impl<A: Allocator> Model for Column<A> {
    ghost use Rattle.std.specs.Prelude.{List};
    ghost use Rattle.submatch.specs.Rows.{Row};

    ghost Value = { List Row };

    ghost view = { λ c. c.rows.items };
}

impl<A: Allocator> Column<A> {
    /// No rows yet.
    pub(crate) fn new(alloc: A) -> Column<A>
        ensures { result ≡ [] }
    {
        Column {
            rows: Vec::new(alloc),
        }
    }

    /// No rows yet, with memory for so many.
    pub(crate) fn with_room(alloc: A, places: u16) -> Result<Column<A>, MemoryFault>
        ensures { IfOk result (λ column. column ≡ []) }
    {
        Ok(Column {
            rows: Vec::with_capacity(alloc, usize::from(places))?,
        })
    }

    /// Adds the row of the next place.
    pub(crate) fn push(&mut self, row: Row) -> Result<(), MemoryFault>
        ensures { OnOk result (self.new ≡ self.old ++ row ∷ []) }
    {
        self.rows.push(row)?;
        Ok(())
    }

    /// Puts a row in the place of another.
    pub(crate) fn set(&mut self, from: u16, row: Row)
        requires { from < length self.old }
        ensures { self.new ≡ slice_set self.old from row }
    {
        self.rows[usize::from(from)] = row;
    }

    /// Whether it has rows.
    pub(crate) fn has_rows(&self) -> bool
        ensures { IsTrue result ↔ (0 < length self.now) }
    {
        !self.rows.is_empty()
    }

    /// Looks up the row of a place: one step where there is one.
    pub(crate) fn row<L: Ledger>(&self, from: u16, steps: &mut Steps<L>) -> Row
        ensures row { AreEnds (Leads self.now from) result }
        ensures counted { from < length self.now → steps.new ≡ steps.old + 1 }
        ensures steps { steps.new ≤ steps.old + 1 }
        ensures idle { length self.now ≡ 0 → steps.new ≡ steps.old }
    {
        match self.rows.get(usize::from(from)) {
            Some(row) => {
                steps.tick();
                *row
            }
            None => Row::new(),
        }
    }

    /// Adds to a row that of a place: one step where there is one.
    fn join_row<L: Ledger>(&self, from: u16, row: &mut Row, steps: &mut Steps<L>)
        ensures row { AddsPlaces (Leads self.now from) row.old row.new }
        ensures counted { from < length self.now → steps.new ≡ steps.old + 1 }
        ensures steps { steps.new ≤ steps.old + 1 }
        ensures up { steps.old ≤ steps.new }
    {
        if let Some(more) = self.rows.get(usize::from(from)) {
            steps.tick();
            row.join(more);
        }
    }

    /// The same where something holds, and else nothing.
    fn join_row_where<L: Ledger>(&self, holds: bool, from: u16, row: &mut Row, steps: &mut Steps<L>)
        ensures row { AddsPlaces (λ j. IsTrue holds × Leads self.now from j) row.old row.new }
        ensures steps { steps.new ≤ steps.old + 1 }
        ensures idle { (IsTrue holds → ⊥) → steps.new ≡ steps.old }
        ensures up { steps.old ≤ steps.new }
    {
        if !holds {
            return;
        }
        self.join_row(from, row, steps)
    }

    /// Adds to a row those of the places whose bits are set in a word, the first of which is `start`.
    fn join_word<L: Ledger>(&self, word: u64, start: u16, row: &mut Row, steps: &mut Steps<L>)
        requires { start < 256 }
        ensures row { AddsPlaces (LeadsFromBit self.now word start) row.old row.new }
        ensures steps { (n : ℕ) → ((bit : ℕ) → bit_at word bit ≡ 1 → bit < n) → steps.new ≤ steps.old + n }
        ensures up { steps.old ≤ steps.new }
    {
        let mut left = word;
        let mut at = start;
        while left != 0 {
            self.join_row_where(left % 2 == 1, at, row, steps);
            left /= 2;
            at += 1;
        }
    }

    /// The first place without a row, of those that a row can have.
    fn end_of_rows(&self) -> u16
        ensures within { result ≤ 256 }
        ensures past { (i j : ℕ) → i < 256 → Leads self.now i j → i < result }
    {
        self.rows.len().min(256) as u16
    }

    /// Adds to a row those of the places that another row has, from this place on: at most one step for each of these. Where
    /// the rows and the row are closed, those of places that the row already has are passed over.
    pub(crate) fn join_rows<L: Ledger>(
        &self,
        closed: bool,
        places: &Row,
        from: u16,
        row: &mut Row,
        steps: &mut Steps<L>,
    )
        requires from { from ≤ 256 }
        requires rows { IsTrue closed → IsClosedFrom from self.now }
        requires row { IsTrue closed → IsClosedOver from self.now row.old }
        ensures row { AddsPlaces (LeadsFrom self.now places.now from) row.old row.new }
        ensures steps { (n : ℕ) → from ≤ n → ((at : ℕ) → Has places.now at → at < n) → steps.new + from ≤ steps.old + n }
        ensures up { steps.old ≤ steps.new }
    {
        if closed {
            return self.join_new_rows(places, from, row, steps);
        }
        let end = self.end_of_rows();
        let mut at = from;
        while at < end {
            self.join_word(places.word_from(at), at, row, steps);
            at = (at / 64 + 1) * 64;
        }
    }

    /// Adds the rows of those of these places that the row does not have yet, and of few others.
    fn join_new_rows<L: Ledger>(&self, places: &Row, from: u16, row: &mut Row, steps: &mut Steps<L>)
        requires from { from ≤ 256 }
        requires rows { IsClosedFrom from self.now }
        requires row { IsClosedOver from self.now row.old }
        ensures row { AddsPlaces (LeadsFrom self.now places.now from) row.old row.new }
        ensures steps { (n : ℕ) → from ≤ n → ((at : ℕ) → Has places.now at → at < n) → steps.new + from ≤ steps.old + n }
        ensures up { steps.old ≤ steps.new }
    {
        let end = self.end_of_rows();
        let mut at = from;
        while at < end {
            let next = places.next_new(row, at);
            self.join_row_where(places.has(next), next, row, steps);
            at = next + 1;
        }
    }
}
