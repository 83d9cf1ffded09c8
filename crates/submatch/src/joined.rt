//! Columns made from other columns.
ghost use Rattle.std.specs.Prelude.{◌≡◌, ℕ, ◌+◌, ◌*◌, ◌-◌, ◌<◌, ◌≤◌, max, length, slice_index, IsTrue, None, IfOk};
ghost use Rattle.posix_ere.specs.Parts.{part};
ghost use Rattle.posix_ere.specs.Nodes.{tree_at};
ghost use Rattle.submatch.specs.Parses.{IsParse, AreIterations};
ghost use Rattle.submatch.specs.Ends.{Reaches, RowReaches};
ghost use Rattle.submatch.specs.Rows.{Has, Leads, AreEnds, IsColumn, AreForward, IsAllowed, StopsOrGoes, IsClosedFrom};
ghost use Rattle.submatch.specs.Table.{LeadsSome, square, part_at};

use super::column::Column;
use super::row::Row;
use super::search::Search;
use super::table::Table;
use enum_base::{MemoryFault, Steps};
use std::alloc::Allocator;
use std::sync::ledger::Ledger;

/// How two columns are joined.
#[derive(Clone, Copy)]
pub(crate) struct Joint {
    /// Whether a way may stop at the place that it begins at.
    pub(crate) stops: bool,
    /// Whether the first column may lead to that place.
    pub(crate) empties: bool,
    /// Whether the rows of the second column are closed.
    pub(crate) closed: bool,
}

impl<A: Allocator + Copy> Search<'_, '_, A> {
    // How many places the text has.
    pub(crate) fn places(&self) -> u16
        ensures { result ≡ length self.now.text.now + 1 }
    {
        self.text.len() as u16 + 1
    }

    // The row of a place in a further column, if the row `first` of a place leads there.
    pub(crate) fn row_after<L: Ledger>(
        &self,
        first: &Row,
        rest: &Column<A>,
        empties: bool,
        from: u16,
        at: u16,
        steps: &mut Steps<L>,
    ) -> Row
        requires within { at < 256 }
        ensures row { AreEnds (λ j. Has first.now at × IsAllowed empties from at × Leads rest.now at j) result }
        ensures most { steps.new ≤ steps.old + 1 }
        ensures idle { (Has first.now at → ⊥) → steps.new ≡ steps.old }
    {
        if first.has(at) && (empties || at != from) {
            rest.row(at, steps)
        } else {
            Row::new()
        }
    }

    // From a place: that place itself if the joint `stops`, and the places to which `rest` leads from those to which `part` leads.
    pub(crate) fn joined_row<L: Ledger>(
        &self,
        part: &Column<A>,
        rest: &Column<A>,
        joint: Joint,
        from: u16,
        steps: &mut Steps<L>,
    ) -> Row
        requires forward { AreForward (length self.now.text.now) part.now }
        requires within { from ≤ length self.now.text.now }
        requires closed { IsTrue joint.closed → IsClosedFrom (from + 1) rest.now }
        ensures row { AreEnds (StopsOrGoes joint.stops joint.empties part.now rest.now from) result }
        ensures most { steps.new ≤ steps.old + 2 * (length self.now.text.now + 1) }
        ensures idle { length part.now ≡ 0 → steps.new ≡ steps.old }
    {
        let mut row = Row::one(joint.stops, from);
        let first = part.row(from, steps);
        let here = self.row_after(&first, rest, joint.empties, from, from, steps);
        rest.join_rows(joint.closed, &first, from + 1, &mut row, steps);
        row.join(&here);
        row
    }

    // The same from each place.
    pub(crate) fn joined<L: Ledger>(
        &self,
        part: &Column<A>,
        rest: &Column<A>,
        joint: Joint,
        steps: &mut Steps<L>,
    ) -> Result<Column<A>, MemoryFault>
        requires forward { AreForward (length self.now.text.now) part.now }
        requires closed { IsTrue joint.closed → IsClosedFrom 0 rest.now }
        ensures column { IfOk result (IsColumn (length self.now.text.now) (StopsOrGoes joint.stops joint.empties part.now rest.now)) }
        ensures most { steps.new ≤ steps.old + 2 * square self.now.text.now }
        ensures idle { length part.now ≡ 0 → steps.new ≡ steps.old }
    {
        let mut column = Column::with_room(self.alloc, self.places())?;
        for from in 0..self.places() {
            let row = self.joined_row(part, rest, joint, from, steps);
            column.push(row)?;
        }
        Ok(column)
    }

    // From each place that place itself, if it `stops`.
    pub(crate) fn stay(&self, stops: bool) -> Result<Column<A>, MemoryFault>
        ensures column { IfOk result (IsColumn (length self.now.text.now) (λ i j. IsTrue stops × (i ≡ j))) }
        ensures long { IfOk result (λ column. length column ≡ length self.now.text.now + 1) }
    {
        let mut column = Column::with_room(self.alloc, self.places())?;
        for from in 0..self.places() {
            column.push(Row::one(stops, from))?;
        }
        Ok(column)
    }

    // The ends of further iterations once those that may be empty are over, where there may be any number.
    pub(crate) fn looped<L: Ledger>(
        &self,
        child: u32,
        least: u32,
        part: &Column<A>,
        steps: &mut Steps<L>,
    ) -> Result<Column<A>, MemoryFault>
        requires part { IsColumn (length self.now.text.now) (Reaches (IsParse self.now.fold self.now.text.now
            (tree_at self.now.ere.now child))) part.now }
        ensures column { IfOk result (IsColumn (length self.now.text.now) (RowReaches (AreIterations
            (IsParse self.now.fold self.now.text.now (tree_at self.now.ere.now child)) least None (max least 1)))) }
        ensures most { steps.new ≤ steps.old + 2 * square self.now.text.now }
        ensures idle { length part.now ≡ 0 → steps.new ≡ steps.old }
    {
        let joint = Joint {
            stops: true,
            empties: false,
            closed: true,
        };
        let mut column = self.stay(false)?;
        for from in (0..self.places()).rev() {
            let row = self.joined_row(part, &column, joint, from, steps);
            column.set(from, row);
        }
        Ok(column)
    }

    // All ends of some parts from a place.
    fn merged_row<L: Ledger>(
        &self,
        inside: &[usize],
        table: &Table<A>,
        from: u16,
        steps: &mut Steps<L>,
    ) -> Row
        requires there { (k : ℕ) → k < length inside.now → slice_index inside.now k < length table.now.parts }
        requires own { (k : ℕ) → k < length inside.now →
            (part_at table.now (slice_index inside.now k)).own < length table.now.columns }
        ensures row { AreEnds (λ j. LeadsSome table.now inside.now (length inside.now) from j) result }
        ensures most { steps.new ≤ steps.old + length inside.now }
    {
        let mut row = Row::new();
        for part in inside {
            let ends = table.own(*part).row(from, steps);
            row.join(&ends);
        }
        row
    }

    // The same from each place.
    pub(crate) fn merged<L: Ledger>(
        &self,
        inside: &[usize],
        table: &Table<A>,
        steps: &mut Steps<L>,
    ) -> Result<Column<A>, MemoryFault>
        requires there { (k : ℕ) → k < length inside.now → slice_index inside.now k < length table.now.parts }
        requires own { (k : ℕ) → k < length inside.now →
            (part_at table.now (slice_index inside.now k)).own < length table.now.columns }
        ensures column { IfOk result (IsColumn (length self.now.text.now) (λ i j. LeadsSome table.now inside.now (length inside.now) i j)) }
        ensures most { steps.new ≤ steps.old + length inside.now * (length self.now.text.now + 1) }
    {
        let mut column = Column::with_room(self.alloc, self.places())?;
        for from in 0..self.places() {
            column.push(self.merged_row(inside, table, from, steps))?;
        }
        Ok(column)
    }
}
