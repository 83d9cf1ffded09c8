//! Edges between domains.

use crate::report::Outcome;
use dns_name::Name;
use enum_base::List;
use naptr_data::Naptr;

// One edge out of a domain (RFC 3402, section 3).
#[derive(Drop)]
pub(crate) enum Edge {
    // The next domain, folded: by a rule that is not terminal, or by an alias.
    Step(Name),
    // A terminal rule, and what it gives.
    Stop(Naptr, Outcome),
}

// A list of edges.
pub(crate) type Edges = List<Edge>;
