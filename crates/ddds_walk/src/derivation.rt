//! The way of a derivation from a key.

use enum_base::Ranks;

// A derivation: the place of the key that it leads from, from 0, and the ranks of the edges from there on.
#[derive(Drop)]
pub(crate) struct Derivation {
    pub(crate) place: u8,
    pub(crate) ranks: Ranks,
}
