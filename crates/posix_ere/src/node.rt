//! What the nodes of an expression are.

/// A node of an expression (IEEE 1003.1, Base Definitions, 9.4).
#[derive(Clone, Copy, Debug, PartialEq, Eq, Drop)]
pub enum Node {
    /// One or more branches.
    Alt,
    /// Pieces one after another, possibly none.
    Branch,
    /// This byte.
    Byte(u8),
    /// Any byte.
    Any,
    /// A bracket, negated or not.
    Set(bool),
    /// The start of the text.
    Start,
    /// The end of the text.
    End,
    /// A group with its number.
    Group(u32),
    /// The least and the greatest count of what is repeated.
    Rep(u32, Option<u32>),
}
