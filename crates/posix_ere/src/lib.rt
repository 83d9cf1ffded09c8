//! Extended regular expressions: reading a text as a tree.
#![tactic(auto)]

mod bracket;
mod cell;
mod class;
mod ere;
mod frame;
mod interval;
mod node;
mod reader;
mod sign;
mod why;

pub use ere::{Ere, has_one_fault, has_one_reason, has_one_tree, prefixes_close};
pub use node::Node;
pub use why::{EreFault, Why};
