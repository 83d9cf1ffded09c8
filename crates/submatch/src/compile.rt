//! An expression compiled to a table: its parts with the columns of their ends, each found once for all starts.
ghost use Rattle.std.specs.Prelude.{◌≡◌, ◌+◌, ◌*◌, ◌-◌, ◌<◌, ◌≤◌, length, IfOk};
ghost use Rattle.posix_ere.specs.Parts.{parts_of, part, weight, weights};
ghost use Rattle.posix_ere.specs.Nodes.{tree_at};
ghost use Rattle.posix_ere.specs.declared.node.Node.TheVariants.{Alt, Branch, Rep, Group};
ghost use Rattle.submatch.specs.Table.{AreParts, IsShare, IsMade, IsAlive, Grows, square, part_at, AreInsideOf, IsShareInside, KeepsToWeight, KeepsToShare};

use super::search::Search;
use super::table::{Part, Table};
use enum_base::{MemoryFault, Steps};
use posix_ere::Node;
use std::alloc::Allocator;
use std::sync::ledger::Ledger;

impl<A: Allocator + Copy> Search<'_, '_, A> {
    // Compiles the part of a node and those inside it, and tells its number.
    #[cycle(compile)]
    pub(crate) fn compile<L: Ledger>(
        &self,
        at: u32,
        table: &mut Table<A>,
        steps: &mut Steps<L>,
    ) -> Result<usize, MemoryFault>
        requires known { at < length self.now.ere.now }
        requires parts { AreParts self.now.fold self.now.text.now self.now.ere.now table.old }
        ensures parts { IfOk result (λ x. AreParts self.now.fold self.now.text.now self.now.ere.now table.new) }
        ensures grows { IfOk result (λ x. Grows table.old table.new) }
        ensures there { IfOk result (λ x. x < length table.new.parts) }
        ensures number { IfOk result (λ x. (part_at table.new x).at ≡ at) }
        ensures most { steps.new ≤ steps.old + 4 * (weight (tree_at self.now.ere.now at) * square self.now.text.now) }
        ensures share { IfOk result (λ x. IsShare (IsAlive table.new x) 1 (weight (tree_at self.now.ere.now at))
            (square self.now.text.now) steps.old steps.new) }
    {
        let inside = self.compile_inside(at, table, steps)?;
        let part = self.made(at, inside, table, steps)?;
        let number = table.add_part(part)?;
        Ok(number)
    }

    // Compiles the children of a node, and tells their numbers.
    #[cycle(compile)]
    fn compile_inside<L: Ledger>(
        &self,
        at: u32,
        table: &mut Table<A>,
        steps: &mut Steps<L>,
    ) -> Result<Vec<usize, A>, MemoryFault>
        requires known { at < length self.now.ere.now }
        requires parts { AreParts self.now.fold self.now.text.now self.now.ere.now table.old }
        ensures parts { IfOk result (λ xs. AreParts self.now.fold self.now.text.now self.now.ere.now table.new) }
        ensures grows { IfOk result (λ xs. Grows table.old table.new) }
        ensures inside { IfOk result (λ xs. AreInsideOf self.now.ere.now table.new xs.items at) }
        ensures most { steps.new ≤ steps.old +
            4 * (weights (parts_of (tree_at self.now.ere.now at)) * square self.now.text.now) }
        ensures share { IfOk result (λ xs. IsShareInside self.now.text.now (tree_at self.now.ere.now at) table.new xs.items
            steps.old steps.new) }
    {
        let mut inside = Vec::new(self.alloc);
        for k in 0..self.ere.children(at) {
            let part = self.compile(self.ere.child(at, k), table, steps)?;
            inside.push(part)?;
        }
        Ok(inside)
    }

    // The part of a node over the parts inside it.
    fn made<L: Ledger>(
        &self,
        at: u32,
        inside: Vec<usize, A>,
        table: &mut Table<A>,
        steps: &mut Steps<L>,
    ) -> Result<Part<A>, MemoryFault>
        requires known { at < length self.now.ere.now }
        requires inside { AreInsideOf self.now.ere.now table.old inside.items at }
        requires parts { AreParts self.now.fold self.now.text.now self.now.ere.now table.old }
        ensures made { IfOk result (IsMade self.now.fold self.now.text.now self.now.ere.now table.old table.new at) }
        ensures most { KeepsToWeight self.now.text.now (tree_at self.now.ere.now at) table.old inside.items steps.old steps.new }
        ensures share { IfOk result (λ p. KeepsToShare self.now.text.now (tree_at self.now.ere.now at) table.old inside.items
            table.new p steps.old steps.new) }
    {
        match self.ere.node(at) {
            Node::Group(_) => Ok(self.made_through(at, inside, table)),
            Node::Alt => self.made_alt(at, inside, table, steps),
            Node::Branch => self.made_branch(at, inside, table, steps),
            Node::Rep(least, most) => self.made_rep(at, least, most, inside, table, steps),
            Node::Byte(_) | Node::Any | Node::Set(_) | Node::Start | Node::End => self.made_leaf(
                at, inside, table,
            ),
        }
    }
}
