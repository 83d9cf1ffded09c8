//! Domain names (RFC 1035): the wire form in a row of fixed size, comparison without regard to case, names as text and in
//! messages, and lists of names.
#![tactic(auto)]

mod fault;
mod field;
mod label;
mod laws;
mod message_bytes;
mod name;
mod names;
mod order;
mod piece;
mod targets;
mod text;
mod wire;
mod wire_fault;
mod written;

pub use fault::NameFault;
pub use laws::{
    folded_order_is_total, name_at_is_one, name_within_is_one, plain_text_is_written,
    written_is_read_again,
};
pub use message_bytes::MessageBytes;
pub use name::Name;
pub use names::Names;
pub use wire_fault::{WireFault, WithinFault};
pub use written::NameText;
