//! What zones offer for a name (RFC 3403, RFC 1034, RFC 4592), and who is asked for it.
#![tactic(auto)]

mod laws;
mod offer;
mod rules;
mod source;

pub use laws::{offer_folds, one_offer, some_offer};
pub use naptr_rule::{
    InFault, Naptr, RdataFault, rank_is_total, rdata_is_read, rdata_tells_rules, rule_in_is_one,
};
pub use offer::Offer;
pub use rules::Rules;
pub use source::{RuleSource, SourceFault};
