//! An authority: replies to queries over a set of zones, and a link to one in memory (RFC 1034, RFC 1035).
#![tactic(auto)]

mod added;
mod bits;
mod copies;
mod cut;
mod glue;
mod laws;
mod loop_link;
mod message;
mod plan;
mod reply;
mod said;
mod size;

pub use laws::{found_is_ready, one_reply, some_reply, stream_is_whole};
pub use loop_link::LoopLink;
pub use reply::{Answered, answer};
