//! The fields of RDATA (RFC 1035, section 3.3): read in a message, and character-strings as zone text.
#![tactic(auto)]

mod field;
mod in_fault;
mod quoted_text;

pub use field::{address_in, ends_in, name_in, text_in, u16_in, u32_in};
pub use in_fault::InFault;
pub use quoted_text::{QuotedText, quoted};
