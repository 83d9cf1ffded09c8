//! What a reply says.
use dns_wire::{Question, Records};

/// What a reply says: whether it is of authority; its code, of which the header has the low four bits and OPT the
/// others; the question; and the records of its sections, the glue apart.
#[derive(Drop)]
pub struct Draft {
    pub authoritative: bool,
    pub code: u8,
    pub question: Option<Question>,
    pub answers: Records,
    pub authority: Records,
    /// The addresses of servers, which stand in the additional section.
    pub glue: Records,
}

/// What is added to a reply for a name that is looked up: a code, and records of its sections.
#[derive(Drop)]
pub struct Added {
    pub code: u8,
    pub answers: Records,
    pub authority: Records,
    pub glue: Records,
}
