//! The greatest parse rebuilt from the rows, as far as its groups go.
ghost use Rattle.std.specs.Prelude.{◌≡◌, ◌+◌, ◌*◌, ◌<◌, ◌≤◌, length};
ghost use Rattle.posix_ere.specs.Parts.{weight};
ghost use Rattle.posix_ere.specs.Nodes.{node_of};
ghost use Rattle.posix_ere.specs.declared.node.Node.TheVariants as n;
ghost use Rattle.submatch.specs.Parses.{IsParse};
ghost use Rattle.submatch.specs.Table.{AreParts, tree_of, square};
ghost use Rattle.submatch.specs.Ends.{Reaches, AddsGroups};

use super::lookup::Repetition;
use super::search::Search;
use super::spans::{Groups, Span};
use super::table::Table;
use enum_base::Steps;
use posix_ere::Node;
use std::alloc::Allocator;
use std::sync::ledger::Ledger;

impl<A: Allocator + Copy> Search<'_, '_, A> {
    // Writes the spans of the groups that the greatest parse of a part over this stretch took.
    #[cycle(rebuild)]
    pub(crate) fn rebuild<L: Ledger>(
        &self,
        table: &Table<A>,
        number: usize,
        over: Span,
        groups: &mut Groups,
        steps: &mut Steps<L>,
    )
        requires parts { AreParts self.now.fold self.now.text.now self.now.ere.now table.now }
        requires there { number < length table.now.parts }
        requires within { over.from ≤ length self.now.text.now }
        requires reached { Reaches (IsParse self.now.fold self.now.text.now
            (tree_of self.now.ere.now table.now number)) over.from over.to }
        ensures groups { AddsGroups self.now.fold self.now.text.now (tree_of self.now.ere.now table.now number) over
            groups.old groups.new }
        ensures most { steps.new + 2 * square self.now.text.now ≤ steps.old +
            4 * (weight (tree_of self.now.ere.now table.now number) * square self.now.text.now) }
    {
        match self.ere.node(table.part(number).at()) {
            Node::Group(group) => self.rebuild_group(table, number, group, over, groups, steps),
            Node::Alt => self.rebuild_alt(table, number, over, groups, steps),
            Node::Branch => self.rebuild_branch(table, number, over, groups, steps),
            Node::Rep(least, most) => {
                let rep = Repetition {
                    number,
                    least,
                    most,
                };
                self.rebuild_rep(table, rep, over, groups, steps)
            }
            Node::Byte(_) | Node::Any | Node::Set(_) | Node::Start | Node::End => {}
        }
    }

    // The same of a group.
    #[cycle(rebuild)]
    fn rebuild_group<L: Ledger>(
        &self,
        table: &Table<A>,
        number: usize,
        group: u32,
        over: Span,
        groups: &mut Groups,
        steps: &mut Steps<L>,
    )
        requires parts { AreParts self.now.fold self.now.text.now self.now.ere.now table.now }
        requires there { number < length table.now.parts }
        requires kind { node_of (tree_of self.now.ere.now table.now number) ≡ n.Group group }
        requires within { over.from ≤ length self.now.text.now }
        requires reached { Reaches (IsParse self.now.fold self.now.text.now
            (tree_of self.now.ere.now table.now number)) over.from over.to }
        ensures groups { AddsGroups self.now.fold self.now.text.now (tree_of self.now.ere.now table.now number) over
            groups.old groups.new }
        ensures most { steps.new + 2 * square self.now.text.now ≤ steps.old +
            4 * (weight (tree_of self.now.ere.now table.now number) * square self.now.text.now) }
    {
        groups.take(group, over);
        let part = self.inside(table, number, 0);
        self.rebuild(table, part, over, groups, steps)
    }

    // The same of the earliest alternative that has a parse over this stretch.
    #[cycle(rebuild)]
    fn rebuild_alt<L: Ledger>(
        &self,
        table: &Table<A>,
        number: usize,
        over: Span,
        groups: &mut Groups,
        steps: &mut Steps<L>,
    )
        requires parts { AreParts self.now.fold self.now.text.now self.now.ere.now table.now }
        requires there { number < length table.now.parts }
        requires kind { node_of (tree_of self.now.ere.now table.now number) ≡ n.Alt }
        requires within { over.from ≤ length self.now.text.now }
        requires reached { Reaches (IsParse self.now.fold self.now.text.now
            (tree_of self.now.ere.now table.now number)) over.from over.to }
        ensures groups { AddsGroups self.now.fold self.now.text.now (tree_of self.now.ere.now table.now number) over
            groups.old groups.new }
        ensures most { steps.new + 2 * square self.now.text.now ≤ steps.old +
            4 * (weight (tree_of self.now.ere.now table.now number) * square self.now.text.now) }
    {
        let branch = self.earliest(table, number, over, steps);
        self.rebuild(table, branch, over, groups, steps)
    }

    // The same of the pieces of a branch, each taking the longest end from which the others cover the rest: the last piece
    // takes what is left.
    #[cycle(rebuild)]
    fn rebuild_branch<L: Ledger>(
        &self,
        table: &Table<A>,
        number: usize,
        over: Span,
        groups: &mut Groups,
        steps: &mut Steps<L>,
    )
        requires parts { AreParts self.now.fold self.now.text.now self.now.ere.now table.now }
        requires there { number < length table.now.parts }
        requires kind { node_of (tree_of self.now.ere.now table.now number) ≡ n.Branch }
        requires within { over.from ≤ length self.now.text.now }
        requires reached { Reaches (IsParse self.now.fold self.now.text.now
            (tree_of self.now.ere.now table.now number)) over.from over.to }
        ensures groups { AddsGroups self.now.fold self.now.text.now (tree_of self.now.ere.now table.now number) over
            groups.old groups.new }
        ensures most { steps.new + 2 * square self.now.text.now ≤ steps.old +
            4 * (weight (tree_of self.now.ere.now table.now number) * square self.now.text.now) }
    {
        let count = self.count_inside(table, number);
        if count == 0 {
            return;
        }
        let mut place = over.from;
        for k in 0..count - 1 {
            let left = Span {
                from: place,
                to: over.to,
            };
            let Some(end) = self.piece_end(table, number, k, left, steps) else {
                return;
            };
            let piece = self.inside(table, number, k);
            let taken = Span {
                from: place,
                to: end,
            };
            self.rebuild(table, piece, taken, groups, steps);
            place = end;
        }
        let left = Span {
            from: place,
            to: over.to,
        };
        let piece = self.last_piece(table, number, left);
        self.rebuild(table, piece, left, groups, steps)
    }

    // The same of the last iteration of a repetition.
    #[cycle(rebuild)]
    fn rebuild_rep<L: Ledger>(
        &self,
        table: &Table<A>,
        rep: Repetition,
        over: Span,
        groups: &mut Groups,
        steps: &mut Steps<L>,
    )
        requires parts { AreParts self.now.fold self.now.text.now self.now.ere.now table.now }
        requires there { rep.number < length table.now.parts }
        requires kind { node_of (tree_of self.now.ere.now table.now rep.number) ≡ n.Rep rep.least rep.most }
        requires within { over.from ≤ length self.now.text.now }
        requires reached { Reaches (IsParse self.now.fold self.now.text.now
            (tree_of self.now.ere.now table.now rep.number)) over.from over.to }
        ensures groups { AddsGroups self.now.fold self.now.text.now (tree_of self.now.ere.now table.now rep.number) over
            groups.old groups.new }
        ensures most { steps.new + 2 * square self.now.text.now ≤ steps.old +
            4 * (weight (tree_of self.now.ere.now table.now rep.number) * square self.now.text.now) }
    {
        if let Some(last) = self.last_iteration(table, rep, over, steps) {
            let part = self.inside(table, rep.number, 0);
            self.rebuild(table, part, last, groups, steps);
        }
    }
}
