//! The objects of the outside.

/// An object of the outside that may fail.
#[derive(Clone, Copy, Debug, PartialEq, Eq)]
pub enum Object {
    /// The files.
    Shelf,
    /// What is read from its start to its end, as standard input.
    Input,
    /// Where the text goes.
    Output,
}

/// The objects that a run is lent, but for the sink of its fault line.
#[derive(Drop)]
pub(crate) struct Objects<'s, 'i, 'o, S, I, O> {
    pub(crate) shelf: &'s mut S,
    pub(crate) input: &'i mut I,
    pub(crate) out: &'o mut O,
}
