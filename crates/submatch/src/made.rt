//! The part of each kind of node, made over the parts inside it.
ghost use Rattle.std.specs.Prelude.{◌≡◌, ℕ, zero, ◌+◌, ◌*◌, ◌-◌, ◌<◌, ◌≤◌, ◌↔◌, length, slice_index, IsTrue, None, IfOk};
ghost use Rattle.posix_ere.specs.Parts.{parts_of, count_of};
ghost use Rattle.posix_ere.specs.Nodes.{tree_at, node_of};
ghost use Rattle.posix_ere.specs.declared.node.Node.TheVariants as n;
ghost use Rattle.submatch.specs.Parses.{IsParse, AreIterations};
ghost use Rattle.submatch.specs.Rows.{IsColumn, AreForward, IsClosedFrom};
ghost use Rattle.submatch.specs.Ends.{Reaches, RowReaches, IsLeaf};
ghost use Rattle.submatch.specs.Table.{AreParts, AreAlive, IsMade, AddsJoined, PassesOn, square, column_at, part_at};
ghost use Rattle.submatch.specs.Table.{last_count as last_of, AreInsideOf, KeepsToWeight, KeepsToShare};

use super::column::Column;
use super::joined::Joint;
use super::search::Search;
use super::table::{Part, Table};
use enum_base::{MemoryFault, Steps};
use std::alloc::Allocator;
use std::sync::ledger::Ledger;

impl<A: Allocator + Copy> Search<'_, '_, A> {
    // A part for one byte or for a place.
    pub(crate) fn made_leaf(
        &self,
        at: u32,
        inside: Vec<usize, A>,
        table: &mut Table<A>,
    ) -> Result<Part<A>, MemoryFault>
        requires known { at < length self.now.ere.now }
        requires leaf { IsLeaf (node_of (tree_at self.now.ere.now at)) }
        requires inside { AreInsideOf self.now.ere.now table.old inside.items at }
        ensures { IfOk result (IsMade self.now.fold self.now.text.now self.now.ere.now table.old table.new at) }
    {
        let column = self.leaf(at)?;
        let own = table.add_column(column)?;
        Ok(Part::new(at, own, Vec::new(self.alloc), inside))
    }

    // A part that ends where the one inside it does.
    pub(crate) fn made_through(&self, at: u32, inside: Vec<usize, A>, table: &Table<A>) -> Part<A>
        requires known { at < length self.now.ere.now }
        requires passes { PassesOn self.now.fold self.now.text.now (tree_at self.now.ere.now at) }
        requires inside { AreInsideOf self.now.ere.now table.now inside.items at }
        requires parts { AreParts self.now.fold self.now.text.now self.now.ere.now table.now }
        ensures made { IsMade self.now.fold self.now.text.now self.now.ere.now table.now table.now at result }
        ensures same { result.own ≡ (part_at table.now (slice_index inside.items 0)).own }
    {
        let own = table.part(inside[0]).own();
        Part::new(at, own, Vec::new(self.alloc), inside)
    }

    // A part that never matches has no rows.
    fn made_dead(
        &self,
        at: u32,
        inside: Vec<usize, A>,
        table: &mut Table<A>,
    ) -> Result<Part<A>, MemoryFault>
        requires known { at < length self.now.ere.now }
        requires inside { AreInsideOf self.now.ere.now table.old inside.items at }
        requires never { (i j : ℕ) → i ≤ length self.now.text.now → Reaches (IsParse self.now.fold self.now.text.now
            (tree_at self.now.ere.now at)) i j → ⊥ }
        ensures made { IfOk result (IsMade self.now.fold self.now.text.now self.now.ere.now table.old table.new at) }
        ensures dead { IfOk result (λ p. length (column_at table.new p.own) ≡ 0) }
    {
        let own = table.add_column(Column::new(self.alloc))?;
        Ok(Part::new(at, own, Vec::new(self.alloc), inside))
    }

    // Alternatives end where one of them does: a single one is no part of its own, and none at all never match.
    pub(crate) fn made_alt<L: Ledger>(
        &self,
        at: u32,
        inside: Vec<usize, A>,
        table: &mut Table<A>,
        steps: &mut Steps<L>,
    ) -> Result<Part<A>, MemoryFault>
        requires known { at < length self.now.ere.now }
        requires kind { node_of (tree_at self.now.ere.now at) ≡ n.Alt }
        requires inside { AreInsideOf self.now.ere.now table.old inside.items at }
        requires parts { AreParts self.now.fold self.now.text.now self.now.ere.now table.old }
        ensures made { IfOk result (IsMade self.now.fold self.now.text.now self.now.ere.now table.old table.new at) }
        ensures most { KeepsToWeight self.now.text.now (tree_at self.now.ere.now at) table.old inside.items steps.old steps.new }
        ensures share { IfOk result (λ p. KeepsToShare self.now.text.now (tree_at self.now.ere.now at) table.old inside.items
            table.new p steps.old steps.new) }
    {
        if inside.is_empty() {
            return self.made_dead(at, inside, table);
        }
        if inside.len() == 1 {
            return Ok(self.made_through(at, inside, table));
        }
        self.made_several(at, inside, table, steps)
    }

    // Two or more alternatives.
    fn made_several<L: Ledger>(
        &self,
        at: u32,
        inside: Vec<usize, A>,
        table: &mut Table<A>,
        steps: &mut Steps<L>,
    ) -> Result<Part<A>, MemoryFault>
        requires known { at < length self.now.ere.now }
        requires parts { AreParts self.now.fold self.now.text.now self.now.ere.now table.old }
        requires kind { node_of (tree_at self.now.ere.now at) ≡ n.Alt }
        requires inside { AreInsideOf self.now.ere.now table.old inside.items at }
        ensures made { IfOk result (IsMade self.now.fold self.now.text.now self.now.ere.now table.old table.new at) }
        ensures most { steps.new ≤ steps.old + count_of (parts_of (tree_at self.now.ere.now at)) * (length self.now.text.now + 1) }
    {
        let column = self.merged(inside.as_slice(), table, steps)?;
        let own = table.add_column(column)?;
        Ok(Part::new(at, own, Vec::new(self.alloc), inside))
    }

    // A branch ends where its pieces do, one after another.
    pub(crate) fn made_branch<L: Ledger>(
        &self,
        at: u32,
        inside: Vec<usize, A>,
        table: &mut Table<A>,
        steps: &mut Steps<L>,
    ) -> Result<Part<A>, MemoryFault>
        requires known { at < length self.now.ere.now }
        requires kind { node_of (tree_at self.now.ere.now at) ≡ n.Branch }
        requires inside { AreInsideOf self.now.ere.now table.old inside.items at }
        requires parts { AreParts self.now.fold self.now.text.now self.now.ere.now table.old }
        ensures made { IfOk result (IsMade self.now.fold self.now.text.now self.now.ere.now table.old table.new at) }
        ensures most { KeepsToWeight self.now.text.now (tree_at self.now.ere.now at) table.old inside.items steps.old steps.new }
        ensures share { IfOk result (λ p. KeepsToShare self.now.text.now (tree_at self.now.ere.now at) table.old inside.items
            table.new p steps.old steps.new) }
    {
        if inside.is_empty() {
            return self.made_empty(at, inside, table);
        }
        if self.are_alive(inside.as_slice(), table) {
            return self.made_pieces(at, inside, table, steps);
        }
        self.made_dead(at, inside, table)
    }

    // A branch without pieces.
    fn made_empty(
        &self,
        at: u32,
        inside: Vec<usize, A>,
        table: &mut Table<A>,
    ) -> Result<Part<A>, MemoryFault>
        requires known { at < length self.now.ere.now }
        requires kind { node_of (tree_at self.now.ere.now at) ≡ n.Branch }
        requires empty { count_of (parts_of (tree_at self.now.ere.now at)) ≡ 0 }
        requires inside { AreInsideOf self.now.ere.now table.old inside.items at }
        ensures made { IfOk result (IsMade self.now.fold self.now.text.now self.now.ere.now table.old table.new at) }
    {
        let column = self.stay(true)?;
        let own = table.add_column(column)?;
        Ok(Part::new(at, own, Vec::new(self.alloc), inside))
    }

    // The pieces of a branch: from the last on, each before what is left of them.
    fn made_pieces<L: Ledger>(
        &self,
        at: u32,
        inside: Vec<usize, A>,
        table: &mut Table<A>,
        steps: &mut Steps<L>,
    ) -> Result<Part<A>, MemoryFault>
        requires known { at < length self.now.ere.now }
        requires kind { node_of (tree_at self.now.ere.now at) ≡ n.Branch }
        requires some { zero < length inside.items }
        requires inside { AreInsideOf self.now.ere.now table.old inside.items at }
        requires parts { AreParts self.now.fold self.now.text.now self.now.ere.now table.old }
        ensures made { IfOk result (IsMade self.now.fold self.now.text.now self.now.ere.now table.old table.new at) }
        ensures most { steps.new ≤ steps.old + (count_of (parts_of (tree_at self.now.ere.now at)) - 1) * (2 * square self.now.text.now) }
    {
        let last = inside.len() - 1;
        let mut own = table.part(inside[last]).own();
        let mut rests = Vec::new(self.alloc);
        rests.push(own)?;
        let joint = Joint {
            stops: false,
            empties: true,
            closed: false,
        };
        for k in (0..last).rev() {
            own = self.add_joined(inside[k], own, joint, table, &mut rests, steps)?;
        }
        Ok(Part::new(at, own, rests, inside))
    }

    // Adds the column that leads through a part and then through another column, and its number to a list.
    fn add_joined<L: Ledger>(
        &self,
        part: usize,
        rest: usize,
        joint: Joint,
        table: &mut Table<A>,
        rests: &mut Vec<usize, A>,
        steps: &mut Steps<L>,
    ) -> Result<usize, MemoryFault>
        requires part { part < length table.old.parts }
        requires own { (part_at table.old part).own < length table.old.columns }
        requires rest { rest < length table.old.columns }
        requires forward { AreForward (length self.now.text.now) (column_at table.old (part_at table.old part).own) }
        requires closed { IsTrue joint.closed → IsClosedFrom 0 (column_at table.old rest) }
        ensures added { IfOk result (AddsJoined (length self.now.text.now) joint.stops joint.empties table.old table.new part rest
            rests.old.items rests.new.items) }
        ensures most { steps.new ≤ steps.old + 2 * square self.now.text.now }
        ensures idle { length (column_at table.old (part_at table.old part).own) ≡ 0 → steps.new ≡ steps.old }
    {
        let column = self.joined(table.own(part), table.column(rest), joint, steps)?;
        let number = table.add_column(column)?;
        rests.push(number)?;
        Ok(number)
    }

    // Whether the ends of all these parts are looked up.
    fn are_alive(&self, inside: &[usize], table: &Table<A>) -> bool
        requires there { (k : ℕ) → k < length inside.now → slice_index inside.now k < length table.now.parts }
        requires own { (k : ℕ) → k < length inside.now →
            (part_at table.now (slice_index inside.now k)).own < length table.now.columns }
        ensures { IsTrue result ↔ AreAlive table.now inside.now }
    {
        for part in inside {
            if !table.own(*part).has_rows() {
                return false;
            }
        }
        true
    }

    // A repetition ends where its iterations do: from the last count on, each before what is left of them.
    pub(crate) fn made_rep<L: Ledger>(
        &self,
        at: u32,
        least: u32,
        most: Option<u32>,
        inside: Vec<usize, A>,
        table: &mut Table<A>,
        steps: &mut Steps<L>,
    ) -> Result<Part<A>, MemoryFault>
        requires known { at < length self.now.ere.now }
        requires kind { node_of (tree_at self.now.ere.now at) ≡ n.Rep least most }
        requires inside { AreInsideOf self.now.ere.now table.old inside.items at }
        requires parts { AreParts self.now.fold self.now.text.now self.now.ere.now table.old }
        ensures made { IfOk result (IsMade self.now.fold self.now.text.now self.now.ere.now table.old table.new at) }
        ensures most { steps.new ≤ steps.old + 2 * square self.now.text.now +
            last_of least most * (2 * square self.now.text.now) }
        ensures idle { length (column_at table.old (part_at table.old (slice_index inside.items 0)).own) ≡ 0 →
            steps.new ≡ steps.old }
    {
        let part = inside[0];
        let last = last_count(least, most);
        let column = self.last_column(part, least, most, table, steps)?;
        let mut own = table.add_column(column)?;
        let mut rests = Vec::new(self.alloc);
        rests.push(own)?;
        for k in (0..last).rev() {
            let joint = Joint {
                stops: least <= k,
                empties: k < least.max(1),
                closed: is_before_loop(most, k, last),
            };
            own = self.add_joined(part, own, joint, table, &mut rests, steps)?;
        }
        Ok(Part::new(at, own, rests, inside))
    }

    // The ends of what is left of the iterations of a part from the last count on.
    fn last_column<L: Ledger>(
        &self,
        part: usize,
        least: u32,
        most: Option<u32>,
        table: &Table<A>,
        steps: &mut Steps<L>,
    ) -> Result<Column<A>, MemoryFault>
        requires there { part < length table.now.parts }
        requires parts { AreParts self.now.fold self.now.text.now self.now.ere.now table.now }
        ensures column { IfOk result (IsColumn (length self.now.text.now) (RowReaches (AreIterations
            (IsParse self.now.fold self.now.text.now (tree_at self.now.ere.now (part_at table.now part).at))
            least most (last_of least most)))) }
        ensures most { steps.new ≤ steps.old + 2 * square self.now.text.now }
        ensures idle { length (column_at table.now (part_at table.now part).own) ≡ 0 → steps.new ≡ steps.old }
    {
        match most {
            Some(most) => self.stay(least <= most),
            None => self.looped(table.part(part).at(), least, table.own(part), steps),
        }
    }
}

// Whether only this iteration comes before those of which there may be any number.
fn is_before_loop(most: Option<u32>, k: u32, last: u32) -> bool
    requires { k < last }
    ensures { IsTrue result → (most ≡ None) × (k + 1 ≡ last) }
{
    match most {
        Some(_) => false,
        None => k + 1 == last,
    }
}

// The count of iterations from which on what is left no longer changes, or is nothing.
pub(crate) fn last_count(least: u32, most: Option<u32>) -> u32
    ensures { result ≡ last_of least most }
{
    match most {
        Some(most) => most,
        None => least.max(1),
    }
}
