//! The cells in which a tree is kept.
ghost use Rattle.std.specs.Prelude.{◌≡◌, ◌++◌, ◌∷◌, Contains, ◌+◌, ◌<◌, ◌≤◌, ◌^◌, min, length, take, [], ◌↔◌, IsTrue};
ghost use Rattle.std.specs.Result.{OnOk};
ghost use Rattle.posix_ere.specs.Parts.{count_of, part, parts_of, times, weight};
ghost use Rattle.posix_ere.specs.Nodes.{node_of, tree_at, IsSet, listed_of};
ghost use Rattle.posix_ere.specs.Cells.{
  stack_of,
  trees_of,
  made,
  put,
  FitsNode,
  capped,
  most,
  Walked,
};

use crate::bracket::Marks;
use crate::node::Node;
use std::alloc::{AllocError, Allocator};
use std::marker::Model;

// The greatest weight that is told.
const MOST: u32 = 1_000_000;

// A node, the bytes that it lists, how many parts it has, where their cells begin, and its weight up to `MOST`.
#[derive(Clone, Copy, Drop)]
struct Cell {
    node: Node,
    marks: Marks,
    count: u32,
    start: u32,
    weight: u32,
}

// Where some parts begin, and their weight together up to `MOST`.
#[derive(Clone, Copy, Drop)]
struct Row {
    start: u32,
    weight: u32,
}

// Cells, each after its parts.
#[derive(Drop)]
pub(crate) struct Cells<A: Allocator> {
    items: Vec<Cell, A>,
}

impl<A: Allocator> Model for Cells<A> {
    ghost use Rattle.std.specs.Prelude.{List};
    ghost use Rattle.posix_ere.specs.declared.cell.Cell.{Cell as SpecCell};
    ghost use Rattle.posix_ere.specs.Cells.{AreCells};

    ghost Value = { List SpecCell };

    ghost view = { λ c. c.items.items };

    ghost invariant = { λ c. AreCells c.items.items };
}

// How often the weight of a repeated part counts.
fn times(low: u32, high: Option<u32>) -> u32
    ensures { result ≡ times low high }
{
    high.unwrap_or(low).max(1)
}

// The weight of a node over parts that weigh so much together.
fn weight_of(node: Node, inside: u32, count: u32) -> u32
    requires { inside ≤ most }
    ensures { result ≡ capped node inside count }
{
    let inside = u64::from(inside);
    let weight = match node {
        Node::Alt => inside + u64::from(count.saturating_sub(1)),
        Node::Branch => if count == 0 { 1 } else { inside },
        Node::Group(_) => 1 + inside,
        Node::Rep(low, high) => u64::from(times(low, high))
            .saturating_mul(inside)
            .saturating_add(1),
        _ => 1,
    };
    weight.min(u64::from(MOST)) as u32
}

impl<A: Allocator + Copy> Cells<A> {
    pub(crate) fn new(alloc: A) -> Cells<A>
        ensures { result ≡ [] }
    {
        Cells {
            items: Vec::new(alloc),
        }
    }
}

impl<A: Allocator> Cells<A> {
    pub(crate) fn len(&self) -> usize
        ensures { result ≡ length self.now }
    {
        self.items.len()
    }

    // Where the last `count` trees before a cell begin, and their weight together.
    fn row(&self, end: u32, count: u32) -> Row
        requires within { end ≤ length self.now }
        requires enough { count ≤ length (stack_of (take end self.now)) }
        ensures { Walked self.now result.start end count result.weight }
    {
        let mut start = end;
        let mut weight = 0;
        for _done in 0..count {
            let cell = &self.items[start as usize - 1];
            weight = (weight + cell.weight).min(MOST);
            start = cell.start;
        }
        Row { start, weight }
    }

    // One more node, over the last `count` trees.
    pub(crate) fn push(&mut self, node: Node, marks: Marks, count: u32) -> Result<(), AllocError>
        requires room { length self.old < 2 ^ 32 }
        requires enough { count ≤ length (stack_of self.old) }
        requires fits { FitsNode node count }
        ensures stack { OnOk result (stack_of self.new ≡ put node marks count (stack_of self.old)) }
        ensures length { OnOk result (length self.new ≡ length self.old + 1) }
        ensures tree { OnOk result (trees_of self.new
            ≡ trees_of self.old ++ made node marks count (stack_of self.old) ∷ []) }
    {
        let row = self.row(self.items.len() as u32, count);
        let weight = weight_of(node, row.weight, count);
        self.items.push(Cell {
            node,
            marks,
            count,
            start: row.start,
            weight,
        })?;
        Ok(())
    }

    // The node with this number.
    pub(crate) fn node(&self, at: u32) -> Node
        requires { at < length self.now }
        ensures { result ≡ node_of (tree_at (trees_of self.now) at) }
    {
        self.items[at as usize].node
    }

    // The weight of the node with this number, at most `MOST`.
    pub(crate) fn weight(&self, at: u32) -> u32
        requires { at < length self.now }
        ensures { result ≡ min (weight (tree_at (trees_of self.now) at)) most }
    {
        self.items[at as usize].weight
    }

    // How many parts the node has.
    pub(crate) fn children(&self, at: u32) -> u32
        requires { at < length self.now }
        ensures { result ≡ count_of (parts_of (tree_at (trees_of self.now) at)) }
    {
        self.items[at as usize].count
    }

    // The number of the part `k` of the node.
    pub(crate) fn child(&self, at: u32, k: u32) -> u32
        requires within { at < length self.now }
        requires kth { k < count_of (parts_of (tree_at (trees_of self.now) at)) }
        ensures lesser { result < at }
        ensures part { tree_at (trees_of self.now) result ≡ part (parts_of (tree_at (trees_of self.now) at)) k }
    {
        let count = self.items[at as usize].count;
        self.row(at, count - 1 - k).start - 1
    }

    // Whether the bracket lists the byte.
    pub(crate) fn lists(&self, at: u32, byte: u8) -> bool
        requires within { at < length self.now }
        requires set { IsSet (tree_at (trees_of self.now) at) }
        ensures { IsTrue result ↔ Contains (listed_of (tree_at (trees_of self.now) at)) byte }
    {
        let cell = &self.items[at as usize];
        byte < 128 && cell.marks[byte as usize]
    }
}
