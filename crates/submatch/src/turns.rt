//! Which alternative is taken, and how far each piece of a branch and each iteration of a repetition goes: to the longest
//! end from which what is left of them covers the rest.
ghost use Rattle.std.specs.Prelude.{◌≡◌, ℕ, zero, ◌+◌, ◌-◌, ◌*◌, ◌^◌, ◌<◌, ◌≤◌, max, length, IfSome, IfNone, Some, None};
ghost use Rattle.posix_ere.specs.Parts.{parts_of, count_of, part};
ghost use Rattle.posix_ere.specs.Nodes.{node_of};
ghost use Rattle.posix_ere.specs.declared.node.Node.TheVariants as n;
ghost use Rattle.submatch.specs.Parses.{Parses, IsParse, ArePieces, IsIteration, AreIterations};
ghost use Rattle.submatch.specs.Greater.{AreGreatest};
ghost use Rattle.submatch.specs.Rows.{AreForward, IsTurn};
ghost use Rattle.submatch.specs.Table.{AreParts, AreRests, part_at, tree_of, last_count as last_of};
ghost use Rattle.submatch.specs.Ends.{Reaches, RowReaches, parts_from, IsFirst, IsHeadEnd, TellsLongest, LeavesGroupsOf};

use super::column::Column;
use super::lookup::Repetition;
use super::search::{Search, is_below};
use super::spans::Span;
use super::table::Table;
use enum_base::Steps;
use std::alloc::Allocator;
use std::sync::ledger::Ledger;

impl<A: Allocator + Copy> Search<'_, '_, A> {
    // The longest place to which `part` leads from one place, and `rest` from there to another.
    fn longest_turn<L: Ledger>(
        &self,
        part: &Column<A>,
        rest: &Column<A>,
        empties: bool,
        over: Span,
        steps: &mut Steps<L>,
    ) -> Option<u16>
        requires forward { AreForward (length self.now.text.now) part.now }
        requires within { over.from ≤ length self.now.text.now }
        requires end { over.to ≤ length self.now.text.now }
        ensures end { TellsLongest (IsTurn empties part.now rest.now over.from over.to) result }
        ensures most { steps.new ≤ steps.old + (length self.now.text.now + 2) }
    {
        let first = part.row(over.from, steps);
        for end in (over.from..self.places()).rev() {
            let next = self.row_after(&first, rest, empties, over.from, end, steps);
            if next.has(over.to) {
                return Some(end);
            }
        }
        None
    }

    // The number of the part of the earliest alternative that has a parse over this stretch.
    pub(crate) fn earliest<L: Ledger>(
        &self,
        table: &Table<A>,
        number: usize,
        over: Span,
        steps: &mut Steps<L>,
    ) -> usize
        requires parts { AreParts self.now.fold self.now.text.now self.now.ere.now table.now }
        requires there { number < length table.now.parts }
        requires kind { node_of (tree_of self.now.ere.now table.now number) ≡ n.Alt }
        requires within { over.from ≤ length self.now.text.now }
        requires end { over.to ≤ length self.now.text.now }
        requires reached { Reaches (IsParse self.now.fold self.now.text.now
            (tree_of self.now.ere.now table.now number)) over.from over.to }
        ensures before { result < number }
        ensures there { result < length table.now.parts }
        ensures reached { Reaches (IsParse self.now.fold self.now.text.now
            (tree_of self.now.ere.now table.now result)) over.from over.to }
        ensures first { IsFirst self.now.fold self.now.text.now
            (parts_of (tree_of self.now.ere.now table.now number)) over (tree_of self.now.ere.now table.now result) }
        ensures most { steps.new + 1 ≤ steps.old + count_of (parts_of (tree_of self.now.ere.now table.now number)) }
    {
        let last = self.count_inside(table, number) - 1;
        for k in 0..last {
            let branch = self.inside(table, number, k);
            let row = self.own(table, branch).row(over.from, steps);
            if row.has(over.to) {
                return branch;
            }
        }
        self.inside(table, number, last)
    }

    // The number of the part of the last piece of a branch, which takes all that is left.
    pub(crate) fn last_piece(&self, table: &Table<A>, number: usize, left: Span) -> usize
        requires parts { AreParts self.now.fold self.now.text.now self.now.ere.now table.now }
        requires there { number < length table.now.parts }
        requires some { zero < count_of (parts_of (tree_of self.now.ere.now table.now number)) }
        requires left { RowReaches (ArePieces self.now.fold self.now.text.now (parts_from
            (count_of (parts_of (tree_of self.now.ere.now table.now number)) - 1)
            (parts_of (tree_of self.now.ere.now table.now number)))) left.from left.to }
        ensures before { result < number }
        ensures there { result < length table.now.parts }
        ensures tree { tree_of self.now.ere.now table.now result ≡ part (parts_of (tree_of self.now.ere.now table.now number))
            (count_of (parts_of (tree_of self.now.ere.now table.now number)) - 1) }
        ensures reached { Reaches (IsParse self.now.fold self.now.text.now
            (tree_of self.now.ere.now table.now result)) left.from left.to }
    {
        let count = self.count_inside(table, number);
        self.inside(table, number, count - 1)
    }

    // The longest end of piece `k`, which is not the last, from which the later pieces cover the rest of the stretch.
    pub(crate) fn piece_end<L: Ledger>(
        &self,
        table: &Table<A>,
        number: usize,
        k: usize,
        over: Span,
        steps: &mut Steps<L>,
    ) -> Option<u16>
        requires parts { AreParts self.now.fold self.now.text.now self.now.ere.now table.now }
        requires there { number < length table.now.parts }
        requires kind { node_of (tree_of self.now.ere.now table.now number) ≡ n.Branch }
        requires rests { AreRests self.now.fold self.now.text.now table.now (part_at table.now number).rests
            (tree_of self.now.ere.now table.now number) }
        requires kth { k + 1 < count_of (parts_of (tree_of self.now.ere.now table.now number)) }
        requires fits { k + 1 < 2 ^ 64 }
        requires within { over.from ≤ length self.now.text.now }
        requires end { over.to ≤ length self.now.text.now }
        ensures end { TellsLongest (IsHeadEnd (IsParse self.now.fold self.now.text.now
            (part (parts_of (tree_of self.now.ere.now table.now number)) k)) (ArePieces self.now.fold self.now.text.now
            (parts_from (k + 1) (parts_of (tree_of self.now.ere.now table.now number)))) over.from over.to) result }
        ensures most { steps.new ≤ steps.old + (length self.now.text.now + 2) }
    {
        let piece = self.own(table, self.inside(table, number, k));
        let rest = self.rest_of_pieces(table, number, k + 1);
        self.longest_turn(piece, rest, true, over, steps)
    }

    // The longest end of the iteration after the first `done` from which further ones cover the rest of the stretch.
    fn iteration_end<L: Ledger>(
        &self,
        table: &Table<A>,
        rep: Repetition,
        done: u64,
        over: Span,
        steps: &mut Steps<L>,
    ) -> Option<u16>
        requires parts { AreParts self.now.fold self.now.text.now self.now.ere.now table.now }
        requires there { rep.number < length table.now.parts }
        requires kind { node_of (tree_of self.now.ere.now table.now rep.number) ≡ n.Rep rep.least rep.most }
        requires rests { AreRests self.now.fold self.now.text.now table.now (part_at table.now rep.number).rests
            (tree_of self.now.ere.now table.now rep.number) }
        requires few { done < 2 ^ 62 }
        requires within { over.from ≤ length self.now.text.now }
        requires end { over.to ≤ length self.now.text.now }
        ensures end { TellsLongest (IsHeadEnd (IsIteration (IsParse self.now.fold self.now.text.now
            (part (parts_of (tree_of self.now.ere.now table.now rep.number)) 0)) rep.least rep.most done)
            (AreIterations (IsParse self.now.fold self.now.text.now (part (parts_of
            (tree_of self.now.ere.now table.now rep.number)) 0)) rep.least rep.most (done + 1)) over.from over.to) result }
        ensures most { steps.new ≤ steps.old + (length self.now.text.now + 2) }
    {
        if !is_below(done, rep.most) {
            return None;
        }
        let part = self.own(table, self.inside(table, rep.number, 0));
        let rest = self.rest_of_iterations(table, rep, done + 1);
        let empties = done < u64::from(rep.least).max(1);
        self.longest_turn(part, rest, empties, over, steps)
    }

    // The stretch of the last iteration of the greatest ones over this stretch, if there is one.
    pub(crate) fn last_iteration<L: Ledger>(
        &self,
        table: &Table<A>,
        rep: Repetition,
        over: Span,
        steps: &mut Steps<L>,
    ) -> Option<Span>
        requires parts { AreParts self.now.fold self.now.text.now self.now.ere.now table.now }
        requires there { rep.number < length table.now.parts }
        requires kind { node_of (tree_of self.now.ere.now table.now rep.number) ≡ n.Rep rep.least rep.most }
        requires rests { AreRests self.now.fold self.now.text.now table.now (part_at table.now rep.number).rests
            (tree_of self.now.ere.now table.now rep.number) }
        requires within { over.from ≤ length self.now.text.now }
        requires end { over.to ≤ length self.now.text.now }
        ensures groups { (ps : Parses) → AreGreatest (AreIterations (IsParse self.now.fold self.now.text.now
            (part (parts_of (tree_of self.now.ere.now table.now rep.number)) 0)) rep.least rep.most zero over.from over.to)
            ps → LeavesGroupsOf self.now.fold self.now.text.now
            (part (parts_of (tree_of self.now.ere.now table.now rep.number)) 0) over.from ps result }
        ensures within { IfSome result (λ s. s.from ≤ length self.now.text.now) }
        ensures reached { IfSome result (λ s. Reaches (IsParse self.now.fold self.now.text.now
            (part (parts_of (tree_of self.now.ere.now table.now rep.number)) 0)) s.from s.to) }
        ensures none { IfNone result (steps.new ≤ steps.old + (length self.now.text.now + 2)) }
        ensures most { steps.new ≤ steps.old +
            (last_of rep.least rep.most + length self.now.text.now + 1) * (length self.now.text.now + 2) }
    {
        let mut last = None;
        let mut place = over.from;
        for done in 0..self.iterations_bound(rep.least, rep.most) {
            let left = Span {
                from: place,
                to: over.to,
            };
            let Some(end) = self.iteration_end(table, rep, done, left, steps) else {
                return last;
            };
            last = Some(Span {
                from: place,
                to: end,
            });
            place = end;
        }
        last
    }

    // No more iterations than this can come.
    fn iterations_bound(&self, least: u32, most: Option<u32>) -> u64
        ensures most { result ≤ last_of least most + length self.now.text.now + 1 }
        ensures few { result < 2 ^ 62 }
        ensures some { (n : ℕ) → most ≡ Some n → result ≡ n }
        ensures none { most ≡ None → result ≡ max least 1 + length self.now.text.now + 1 }
    {
        match most {
            Some(most) => u64::from(most),
            None => u64::from(least).max(1) + self.text.len() as u64 + 1,
        }
    }
}
