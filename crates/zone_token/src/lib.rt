//! The tokens of zone texts (RFC 1035, section 5.1): entries, their tokens and lexical faults, and the words, names, times,
//! character-strings and addresses that a token is.
#![tactic(auto)]

mod addresses;
mod bytes;
mod cuts;
mod fault;
mod fields;
mod laws;
mod quads;
mod spot;
mod texts;
mod times;
mod token;
mod tokens;

pub use addresses::read_address;
pub use bytes::is_blank;
pub use fault::TextWhy;
pub use fields::{bare_at, ends_at, is_word, name_at, token_at};
pub use laws::{blank_entries_have_no_token, entries_are_the_text, entries_keep_tokens_whole};
pub use quads::read_quad;
pub use spot::{Part, Spot};
pub use texts::read_string;
pub use times::read_time;
pub use token::Token;
pub use tokens::{is_blank_entry, read_tokens};
