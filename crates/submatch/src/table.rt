//! The table of a compiled expression: columns of rows, and the parts that name them by number.
ghost use Rattle.std.specs.Prelude.{◌≡◌, ◌<◌, ◌++◌, ◌∷◌, [], length, slice_index, IfOk, OnOk};
ghost use Rattle.submatch.specs.Table.{part_at, column_at};

use super::column::Column;
use enum_base::MemoryFault;
use std::alloc::Allocator;
use std::marker::Model;

/// A part of the expression: the number of its node, of the column of its own ends, of the columns of what is left of its
/// pieces or iterations, from the last on, and of the parts inside it.
#[derive(Drop)]
pub(crate) struct Part<A: Allocator> {
    at: u32,
    own: usize,
    rests: Vec<usize, A>,
    inside: Vec<usize, A>,
}

impl<A: Allocator> Model for Part<A> {
    ghost use Rattle.submatch.specs.Table.{PartValue};

    ghost Value = { PartValue };

    ghost view = { λ p. record { at = p.at; own = p.own; rests = p.rests.items; inside = p.inside.items } };
}

impl<A: Allocator> Part<A> {
    pub(crate) fn new(at: u32, own: usize, rests: Vec<usize, A>, inside: Vec<usize, A>) -> Part<A>
        ensures { result ≡ record { at = at; own = own; rests = rests.items; inside = inside.items } }
    {
        Part {
            at,
            own,
            rests,
            inside,
        }
    }

    pub(crate) fn at(&self) -> u32
        ensures { result ≡ self.now.at }
    {
        self.at
    }

    pub(crate) fn own(&self) -> usize
        ensures { result ≡ self.now.own }
    {
        self.own
    }

    pub(crate) fn rests(&self) -> &[usize]
        ensures { result.now ≡ self.now.rests }
    {
        self.rests.as_slice()
    }

    pub(crate) fn inside(&self) -> &[usize]
        ensures { result.now ≡ self.now.inside }
    {
        self.inside.as_slice()
    }
}

/// The columns and the parts, each under its number.
#[derive(Drop)]
pub(crate) struct Table<A: Allocator> {
    columns: Vec<Column<A>, A>,
    parts: Vec<Part<A>, A>,
}

impl<A: Allocator> Model for Table<A> {
    ghost use Rattle.submatch.specs.Table.{TableValue};

    ghost Value = { TableValue };

    ghost view = { λ t. record { columns = t.columns.items; parts = t.parts.items } };
}

impl<A: Allocator + Copy> Table<A> {
    pub(crate) fn new(alloc: A) -> Table<A>
        ensures { result ≡ record { columns = []; parts = [] } }
    {
        Table {
            columns: Vec::new(alloc),
            parts: Vec::new(alloc),
        }
    }
}

impl<A: Allocator> Table<A> {
    /// Adds a column, and tells its number.
    pub(crate) fn add_column(&mut self, column: Column<A>) -> Result<usize, MemoryFault>
        ensures number { IfOk result (λ c. c ≡ length self.old.columns) }
        ensures columns { OnOk result (self.new.columns ≡ self.old.columns ++ column ∷ []) }
        ensures parts { self.new.parts ≡ self.old.parts }
    {
        let number = self.columns.len();
        self.columns.push(column)?;
        Ok(number)
    }

    /// Adds a part, and tells its number.
    pub(crate) fn add_part(&mut self, part: Part<A>) -> Result<usize, MemoryFault>
        ensures number { IfOk result (λ x. x ≡ length self.old.parts) }
        ensures parts { OnOk result (self.new.parts ≡ self.old.parts ++ part ∷ []) }
        ensures columns { self.new.columns ≡ self.old.columns }
    {
        let number = self.parts.len();
        self.parts.push(part)?;
        Ok(number)
    }

    pub(crate) fn column(&self, number: usize) -> &Column<A>
        requires { number < length self.now.columns }
        ensures { result.now ≡ column_at self.now number }
    {
        &self.columns[number]
    }

    pub(crate) fn part(&self, number: usize) -> &Part<A>
        requires { number < length self.now.parts }
        ensures { result.now ≡ part_at self.now number }
    {
        &self.parts[number]
    }

    /// How many parts are inside a part.
    pub(crate) fn count_inside(&self, number: usize) -> usize
        requires { number < length self.now.parts }
        ensures { result ≡ length (part_at self.now number).inside }
    {
        self.part(number).inside().len()
    }

    /// The number of part `k` inside a part.
    pub(crate) fn inside(&self, number: usize, k: usize) -> usize
        requires part { number < length self.now.parts }
        requires kth { k < length (part_at self.now number).inside }
        ensures { result ≡ slice_index (part_at self.now number).inside k }
    {
        self.part(number).inside()[k]
    }

    /// The column at a place of the rests of a part.
    pub(crate) fn rest(&self, number: usize, place: usize) -> &Column<A>
        requires part { number < length self.now.parts }
        requires listed { place < length (part_at self.now number).rests }
        requires column { slice_index (part_at self.now number).rests place < length self.now.columns }
        ensures { result.now ≡ column_at self.now (slice_index (part_at self.now number).rests place) }
    {
        self.column(self.part(number).rests()[place])
    }

    /// The column of the ends of a part.
    pub(crate) fn own(&self, number: usize) -> &Column<A>
        requires part { number < length self.now.parts }
        requires column { (part_at self.now number).own < length self.now.columns }
        ensures { result.now ≡ column_at self.now (part_at self.now number).own }
    {
        self.column(self.part(number).own())
    }
}
