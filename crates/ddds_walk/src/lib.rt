//! What a resolver finds from its keys on: every end once with its least derivation, or the least loop (RFC 3402).
#![tactic(auto)]

mod asked;
mod client;
mod derivation;
mod domain;
mod domain_edges;
mod edge;
mod fault;
mod frame;
mod laws;
mod output;
mod report;
mod rule_edge;
mod walker;
mod walking;

pub use fault::WalkFault;
pub use laws::{
    all_needed, loop_needed, needed_bound, needed_count, one_loop, one_report, some_report,
};
pub use report::{End, Ends, LoopPath, Outcome, Report};
pub use rule_check::{RuleFault, check_rule, one_rule_fault, rule_or_fault};
pub use walking::walk;
