//! What the case programs of zones share: the records and the zones of texts, records as lines, what a look-up found, and
//! how often.
#![tactic(auto)]

mod found;
mod lines;
mod reading;
mod tally;
mod zones;

pub use found::{case_of, records_found};
pub use lines::{push_folded, push_records};
pub use reading::{read_records, records_of};
pub use tally::Tally;
pub use zones::{ZoneTexts, ranks_of};
