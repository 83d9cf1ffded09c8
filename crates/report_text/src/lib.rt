//! Reports as text: a line for each end, or a loop with its edges.
#![tactic(auto)]

mod report;

pub use report::print_report;
