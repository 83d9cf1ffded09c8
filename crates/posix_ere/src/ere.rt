//! Extended regular expressions as trees (IEEE 1003.1, Base Definitions, 9.4).
ghost use Rattle.std.specs.Prelude.{◌≡◌, ◌↔◌, ◌+◌, ◌<◌, ◌≤◌, length, Contains, IsTrue, IfOk, MatchResult};
ghost use Rattle.std.specs.Result.{IfErr};
ghost use Rattle.posix_ere.specs.Tree.{Tree};
ghost use Rattle.posix_ere.specs.Parts.{count_of, part, parts_of, groups as groups_of, weight as weight_of};
ghost use Rattle.posix_ere.specs.Nodes.{node_of, listed_of, IsSet, tree_at, whole};
ghost use Rattle.posix_ere.specs.Grammar.{Reads};
ghost use Rattle.posix_ere.specs.Cells.{trees_of, IsExpressionOf};
ghost use Rattle.posix_ere.specs.Answers.{HasOneTree, HasOneReason, PrefixesClose, HasOneFault, IsFaultOf, IsFaultAt};

use crate::cell::Cells;
use crate::node::Node;
use crate::reader::Reader;
use crate::why::EreFault;
use std::alloc::Allocator;
use std::marker::Model;

/// An extended regular expression of at most 255 bytes and a weight of at most 512. Its nodes are named by numbers: the
/// root has the greatest, and each child a lesser one than its parent. Clauses see the trees by number, the whole last.
#[derive(Drop)]
pub struct Ere<A: Allocator> {
    cells: Cells<A>,
    groups: u32,
}

impl<A: Allocator> Model for Ere<A> {
    ghost use Rattle.std.specs.Prelude.{List};
    ghost use Rattle.posix_ere.specs.Tree.{Tree};
    ghost use Rattle.posix_ere.specs.Code.{trees_code};
    ghost use Rattle.posix_ere.specs.Cells.{trees_of, IsExpressionOf};

    ghost Value = { List Tree };

    ghost coded = { trees_code };

    ghost view = { λ e. trees_of e.cells };

    ghost invariant = { λ e. IsExpressionOf e.cells e.groups };
}

/// A text has at most one tree.
pub fn has_one_tree()
    ensures { HasOneTree }
{}

/// No two rows of the reasons fit one place, whether the text is broken there or not.
pub fn has_one_reason()
    ensures { HasOneReason }
{}

/// A prefix of a text with a tree can be closed, so the place in `Broken` is the length of the longest prefix that some
/// text with a tree has.
pub fn prefixes_close()
    ensures { PrefixesClose }
{}

/// A text has at most one fault: one place and one reason, or one weight. Being out of memory is no fault of a text.
pub fn has_one_fault()
    ensures { HasOneFault }
{}

impl<A: Allocator + Copy> Ere<A> {
    /// The expression that a text of at most 255 bytes is.
    ///
    /// # Errors
    /// `Broken` where the text has no tree, `TooHeavy` where its tree weighs more than 512, and `Memory`.
    pub fn read(alloc: A, text: &[u8]) -> Result<Ere<A>, EreFault>
        requires short { length text.now ≤ 255 }
        ensures reads { IfOk result (λ ere. Reads text.now (whole ere)) }
        ensures light { IfOk result (λ ere. weight_of (whole ere) ≤ 512) }
        ensures fault { IfErr result (λ e. IsFaultOf text.now e) }
        ensures exact { (t : Tree) → Reads text.now t → MatchResult result (λ ere. whole ere ≡ t) (λ e. IsFaultAt t e) }
    {
        let mut reader = Reader::new(alloc);
        for at in 0..text.len() {
            reader.read(text, at)?;
        }
        reader.finish(text.len() as u8)
    }
}

#[tactic(auto, using(crate::proofs::ToldLemmas::length_trees))]
impl<A: Allocator> Ere<A> {
    // The expression of these cells.
    pub(crate) fn new(cells: Cells<A>, groups: u32) -> Ere<A>
        requires { IsExpressionOf cells groups }
        ensures { result ≡ trees_of cells }
    {
        Ere { cells, groups }
    }

    /// How many groups it has.
    pub fn groups(&self) -> u32
        ensures { result ≡ groups_of (whole self.now) }
    {
        self.groups
    }

    /// Its weight, at most 512.
    pub fn weight(&self) -> u32
        ensures { result ≡ weight_of (whole self.now) }
    {
        self.cells.weight(self.root())
    }

    /// The number of its root, the greatest.
    pub fn root(&self) -> u32
        ensures { result + 1 ≡ length self.now }
    {
        (self.cells.len() - 1) as u32
    }

    /// The node with this number.
    pub fn node(&self, at: u32) -> Node
        requires { at < length self.now }
        ensures { result ≡ node_of (tree_at self.now at) }
    {
        self.cells.node(at)
    }

    /// How many children the node has.
    pub fn children(&self, at: u32) -> u32
        requires { at < length self.now }
        ensures { result ≡ count_of (parts_of (tree_at self.now at)) }
    {
        self.cells.children(at)
    }

    /// The number of the child `k` of the node, from 0 in the order of the text.
    pub fn child(&self, at: u32, k: u32) -> u32
        requires within { at < length self.now }
        requires kth { k < count_of (parts_of (tree_at self.now at)) }
        ensures lesser { result < at }
        ensures part { tree_at self.now result ≡ part (parts_of (tree_at self.now at)) k }
    {
        self.cells.child(at, k)
    }

    /// Whether the bracket with this number lists the byte.
    pub fn lists(&self, at: u32, byte: u8) -> bool
        requires within { at < length self.now }
        requires set { IsSet (tree_at self.now at) }
        ensures { IsTrue result ↔ Contains (listed_of (tree_at self.now at)) byte }
    {
        self.cells.lists(at, byte)
    }
}
