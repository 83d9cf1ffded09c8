//! Zones of given records (RFC 1034, 4.2).
#![tactic(auto)]

mod arrange;
mod build;
mod entry;
mod fault;
mod find;
mod index;
mod indexing;
mod keep;
mod laws;
mod order;
mod soa;
mod sort;
mod zone;

pub use fault::ZoneFault;
pub use laws::{one_zone, one_zone_fault, zone_or_fault};
pub use zone::Zone;
