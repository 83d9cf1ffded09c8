//! What a walk answers: ends and loops.
ghost use Rattle.std.specs.Prelude.{◌≡◌, ◌+◌, length, IfOk};

use dns_name::{Name, Names};
use enum_base::{Bytes, List, MemoryFault, Ranks};
use naptr_data::Naptr;
use std::alloc::Global;

/// What stands at an end (RFC 3403, section 4.1; RFC 3958, section 2.2.3).
#[derive(Drop)]
pub enum Outcome {
    /// The URI that a rule gives.
    Uri(Bytes),
    /// The domain that a rule names, to be looked up under the letter of its flags.
    Target(u8, Name),
    /// Nobody who was asked serves the domain.
    Unserved,
}

impl Outcome {
    // An equal outcome.
    pub(crate) fn copy(&self, alloc: Global) -> Result<Outcome, MemoryFault>
        ensures { IfOk result (λ outcome. outcome ≡ self.now) }
    {
        match self {
            Outcome::Uri(uri) => {
                let mut bytes = Bytes::new(alloc);
                bytes.push_slice(uri.as_slice())?;
                Ok(Outcome::Uri(bytes))
            }
            Outcome::Target(letter, name) => Ok(Outcome::Target(*letter, *name)),
            Outcome::Unserved => Ok(Outcome::Unserved),
        }
    }
}

/// An end: a terminal rule, or a domain that nobody serves.
#[derive(Drop)]
pub struct End {
    /// The place of the key that the least derivation leads from, from 0.
    pub place: u8,
    /// The least derivation: the rank of each rule from that key on, among those followed at its domain.
    pub ranks: Ranks,
    /// The folded domain of the rule, or the one that nobody serves.
    pub domain: Name,
    /// The terminal rule; `None` at a domain that nobody serves.
    pub rule: Option<Naptr>,
    /// What stands there.
    pub outcome: Outcome,
}

/// A list of ends.
pub type Ends = List<End>;

/// A derivation that comes back to one of its domains.
#[derive(Drop)]
pub struct LoopPath {
    /// The place of the key that it leads from, from 0.
    pub place: u8,
    /// Its ranks, from that key on.
    pub ranks: Ranks,
    /// Its folded domains in order, the one that it comes back to last.
    pub domains: Names,
    /// There is one domain more than ranks.
    pub ghost longer: { length domains ≡ length ranks + 1 },
}

/// What a walk finds.
#[derive(Drop)]
pub enum Report {
    /// Every end once, with its least derivation, in rising order; and no derivation is a loop.
    Ends(Ends),
    /// The least loop.
    Loop(LoopPath),
}
