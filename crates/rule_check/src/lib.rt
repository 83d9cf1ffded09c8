//! Which NAPTR rules provisioning takes, and the first fault of the others (RFC 3403, section 4.1).
#![tactic(auto)]

mod check;
mod fault;
mod fields;
mod laws;
mod scheme;
mod uri;

pub use check::check_rule;
pub use fault::RuleFault;
pub use fields::{has_regexp, has_replacement};
pub use laws::{one_rule_fault, rule_or_fault};
pub use uri::is_uri;
