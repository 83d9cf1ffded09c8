//! Zones and sets of zones, and look-up in them (RFC 1034, RFC 4592).
#![tactic(auto)]

mod answer;
mod closest;
mod count;
mod cut;
mod deciding;
mod draft;
mod exchanged;
mod fault;
mod found;
mod laws;
mod link;
mod lookup;
mod offer;
mod set;
mod soa;
mod source;
mod way;
mod words;

pub use draft::{Added, Draft};
pub use exchanged::Exchanged;
pub use fault::AddFault;
pub use found::Found;
pub use laws::{
    found_is_offered, found_is_readable, one_add_fault, one_answer, rules_are_apart, some_answer,
};
pub use link::{Counts, Link};
pub use set::ZoneSet;
pub use source::ZoneSource;
pub use way::Way;
pub use zone_build::{Zone, ZoneFault, one_zone, one_zone_fault, zone_or_fault};
