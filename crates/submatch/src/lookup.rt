//! The parts of a table as what they are parts of: their trees, the ends of these, and the ends of what is left of them.
ghost use Rattle.std.specs.Prelude.{◌≡◌, ◌<◌, length};
ghost use Rattle.posix_ere.specs.Parts.{parts_of, count_of, part};
ghost use Rattle.posix_ere.specs.Nodes.{node_of};
ghost use Rattle.posix_ere.specs.declared.node.Node.TheVariants as n;
ghost use Rattle.submatch.specs.Parses.{IsParse, ArePieces, AreIterations};
ghost use Rattle.submatch.specs.Ends.{Reaches, RowReaches, parts_from};
ghost use Rattle.submatch.specs.Rows.{IsColumn};
ghost use Rattle.submatch.specs.Table.{AreParts, AreRests, IsUpTo, column_at, part_at, tree_of};

use super::column::Column;
use super::made::last_count;
use super::search::Search;
use super::table::Table;
use std::alloc::Allocator;

// The part with this number is a repetition from a least to a greatest count.
#[derive(Clone, Copy)]
pub(crate) struct Repetition {
    pub(crate) number: usize,
    pub(crate) least: u32,
    pub(crate) most: Option<u32>,
}

impl<A: Allocator + Copy> Search<'_, '_, A> {
    // How many parts are inside a part.
    pub(crate) fn count_inside(&self, table: &Table<A>, number: usize) -> usize
        requires parts { AreParts self.now.fold self.now.text.now self.now.ere.now table.now }
        requires there { number < length table.now.parts }
        ensures { result ≡ count_of (parts_of (tree_of self.now.ere.now table.now number)) }
    {
        table.count_inside(number)
    }

    // The number of part `k` inside a part.
    pub(crate) fn inside(&self, table: &Table<A>, number: usize, k: usize) -> usize
        requires parts { AreParts self.now.fold self.now.text.now self.now.ere.now table.now }
        requires there { number < length table.now.parts }
        requires kth { k < count_of (parts_of (tree_of self.now.ere.now table.now number)) }
        ensures before { result < number }
        ensures there { result < length table.now.parts }
        ensures tree { tree_of self.now.ere.now table.now result ≡
            part (parts_of (tree_of self.now.ere.now table.now number)) k }
    {
        table.inside(number, k)
    }

    // The ends of a part.
    pub(crate) fn own<'s>(&self, table: &'s Table<A>, number: usize) -> &'s Column<A>
        requires parts { AreParts self.now.fold self.now.text.now self.now.ere.now table.now }
        requires there { number < length table.now.parts }
        ensures column { IsColumn (length self.now.text.now) (Reaches (IsParse self.now.fold self.now.text.now
            (tree_of self.now.ere.now table.now number))) result.now }
        ensures rows { result.now ≡ column_at table.now (part_at table.now number).own }
    {
        table.own(number)
    }

    // The ends of what is left of the pieces of a branch from piece `k` on.
    pub(crate) fn rest_of_pieces<'s>(
        &self,
        table: &'s Table<A>,
        number: usize,
        k: usize,
    ) -> &'s Column<A>
        requires parts { AreParts self.now.fold self.now.text.now self.now.ere.now table.now }
        requires there { number < length table.now.parts }
        requires kind { node_of (tree_of self.now.ere.now table.now number) ≡ n.Branch }
        requires rests { AreRests self.now.fold self.now.text.now table.now (part_at table.now number).rests
            (tree_of self.now.ere.now table.now number) }
        requires kth { k < count_of (parts_of (tree_of self.now.ere.now table.now number)) }
        ensures { IsColumn (length self.now.text.now) (RowReaches (ArePieces self.now.fold self.now.text.now
            (parts_from k (parts_of (tree_of self.now.ere.now table.now number))))) result.now }
    {
        table.rest(number, self.count_inside(table, number) - 1 - k)
    }

    // The ends of what is left of the iterations of a repetition after the first `k`.
    pub(crate) fn rest_of_iterations<'s>(
        &self,
        table: &'s Table<A>,
        rep: Repetition,
        k: u64,
    ) -> &'s Column<A>
        requires parts { AreParts self.now.fold self.now.text.now self.now.ere.now table.now }
        requires there { rep.number < length table.now.parts }
        requires kind { node_of (tree_of self.now.ere.now table.now rep.number) ≡ n.Rep rep.least rep.most }
        requires rests { AreRests self.now.fold self.now.text.now table.now (part_at table.now rep.number).rests
            (tree_of self.now.ere.now table.now rep.number) }
        requires allowed { IsUpTo k rep.most }
        ensures { IsColumn (length self.now.text.now) (RowReaches (AreIterations (IsParse self.now.fold self.now.text.now
            (part (parts_of (tree_of self.now.ere.now table.now rep.number)) 0)) rep.least rep.most k)) result.now }
    {
        let last = u64::from(last_count(rep.least, rep.most));
        table.rest(rep.number, last.saturating_sub(k) as usize)
    }
}
