//! NAPTR rules (RFC 3403): the record, its RDATA read and written, the order of rules, and rules as zone text.
#![tactic(auto)]

mod bare_name;
mod laws;
mod rdata_fault;
mod read;
mod rule;
mod text;
mod written;

pub use laws::{rank_is_total, rdata_is_read, rdata_tells_rules, rule_in_is_one};
pub use rdata_fault::RdataFault;
pub use rdata_field::InFault;
pub use read::rule_in;
pub use rule::Naptr;
