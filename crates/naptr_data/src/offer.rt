//! What a source of rules offers for a name.

use crate::rules::Rules;
use dns_name::Name;

/// What is at a name (RFC 3403, section 4; RFC 1034, section 3.6.2).
#[derive(Drop)]
pub enum Offer {
    /// Its rules, possibly none, each once and in their order.
    Rules(Rules),
    /// A CNAME: what it stands for.
    Alias(Name),
    /// Nobody who is asked serves the name.
    Unserved,
}
