//! What one search reads, and the ends of the parts for one byte or for a place.
ghost use Rattle.std.specs.Prelude.{◌≡◌, ◌+◌, ◌<◌, ◌≤◌, ◌↔◌, length, IfOk, IsTrue};
ghost use Rattle.posix_ere.specs.Nodes.{tree_at, node_of, listed_of, IsSet};
ghost use Rattle.submatch.specs.Bytes.{passes, is_listed, CoversByte};
ghost use Rattle.submatch.specs.Parses.{IsParse, IsBelow};
ghost use Rattle.submatch.specs.Rows.{AreEnds, IsColumn};
ghost use Rattle.submatch.specs.Ends.{Reaches, IsLeaf, takes_byte};

use super::column::Column;
use super::row::Row;
use enum_base::MemoryFault;
use posix_ere::{Ere, Node};
use std::alloc::Allocator;

// What one search reads: the expression, the text, whether case is folded, and where rows are kept.
#[derive(Drop)]
pub(crate) struct Search<'e, 't, A: Allocator> {
    pub(crate) ere: &'e Ere<A>,
    pub(crate) text: &'t [u8],
    pub(crate) fold: bool,
    pub(crate) alloc: A,
    ghost short: { length text.now ≤ 255 },
}

impl<A: Allocator + Copy> Search<'_, '_, A> {
    // The column of a part for one byte or for a place.
    pub(crate) fn leaf(&self, at: u32) -> Result<Column<A>, MemoryFault>
        requires node { at < length self.now.ere.now }
        requires leaf { IsLeaf (node_of (tree_at self.now.ere.now at)) }
        ensures { IfOk result (IsColumn (length self.now.text.now) (Reaches (IsParse self.now.fold self.now.text.now
            (tree_at self.now.ere.now at)))) }
    {
        let mut column = Column::with_room(self.alloc, self.places())?;
        for from in 0..self.places() {
            column.push(self.leaf_row(at, from))?;
        }
        Ok(column)
    }

    // The ends of such a part from a place.
    fn leaf_row(&self, at: u32, from: u16) -> Row
        requires node { at < length self.now.ere.now }
        requires leaf { IsLeaf (node_of (tree_at self.now.ere.now at)) }
        requires within { from ≤ length self.now.text.now }
        ensures { AreEnds (Reaches (IsParse self.now.fold self.now.text.now (tree_at self.now.ere.now at)) from) result }
    {
        match self.ere.node(at) {
            Node::Start => Row::one(from == 0, from),
            Node::End => Row::one(usize::from(from) == self.text.len(), from),
            Node::Byte(_) | Node::Any | Node::Set(_) => self.row_of_byte(at, from),
            Node::Alt | Node::Branch | Node::Group(_) | Node::Rep(..) => Row::new(),
        }
    }

    // The place after the byte that stands here, if the part takes it.
    fn row_of_byte(&self, at: u32, from: u16) -> Row
        requires node { at < length self.now.ere.now }
        requires within { from ≤ length self.now.text.now }
        ensures { AreEnds (CoversByte (takes_byte self.now.fold
            (tree_at self.now.ere.now at)) self.now.text.now from) result }
    {
        match self.text.get(usize::from(from)) {
            Some(b) => Row::one(self.takes(at, *b), from + 1),
            None => Row::one(false, from),
        }
    }

    // Whether the part is one for a byte and takes this one.
    fn takes(&self, at: u32, b: u8) -> bool
        requires { at < length self.now.ere.now }
        ensures { result ≡ takes_byte self.now.fold (tree_at self.now.ere.now at) b }
    {
        match self.ere.node(at) {
            Node::Byte(x) if self.fold => b.to_ascii_lowercase() == x
                || b.to_ascii_uppercase() == x,
            Node::Byte(x) => b == x,
            Node::Any => true,
            Node::Set(negated) => self.lists(at, b) != negated,
            _ => false,
        }
    }

    // Whether the bracket lists the byte or, with fold, either case of it.
    fn lists(&self, at: u32, b: u8) -> bool
        requires within { at < length self.now.ere.now }
        requires set { IsSet (tree_at self.now.ere.now at) }
        ensures { result ≡ passes self.now.fold (is_listed (listed_of
            (tree_at self.now.ere.now at))) b }
    {
        if self.fold {
            self.lists_byte(at, b.to_ascii_lowercase())
                || self.lists_byte(at, b.to_ascii_uppercase())
        } else {
            self.lists_byte(at, b)
        }
    }

    // Whether the bracket lists the byte.
    fn lists_byte(&self, at: u32, b: u8) -> bool
        requires within { at < length self.now.ere.now }
        requires set { IsSet (tree_at self.now.ere.now at) }
        ensures { result ≡ is_listed (listed_of (tree_at self.now.ere.now at)) b }
    {
        self.ere.lists(at, b)
    }
}

// Whether a further iteration is allowed after the first `k`.
pub(crate) fn is_below(k: u64, most: Option<u32>) -> bool
    ensures { IsTrue result ↔ IsBelow k most }
{
    match most {
        Some(most) => k < u64::from(most),
        None => true,
    }
}
