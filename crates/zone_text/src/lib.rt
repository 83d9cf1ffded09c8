//! Zone texts (RFC 1035, section 5.1): what their entries mean, the records that they state and their faults, and the
//! fields of a record as they are written.
#![tactic(auto)]

mod data;
mod fault;
mod head;
mod kind;
mod laws;
mod meaning;
mod progress;
mod reader;
mod scan;
mod written;

pub use fault::TextFault;
pub use laws::{
    breaks_once, broken_stays_broken, fields_are_read_again, says_once, says_or_breaks,
    says_when_unbroken, too_long_breaks,
};
pub use reader::ZoneReader;
pub use written::write_fields;
pub use zone_token::TextWhy;
