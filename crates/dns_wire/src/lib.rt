//! Records of the domain name system (RFC 1035) and their content; messages, and messages on a stream.
#![tactic(auto)]

mod append;
mod content;
mod content_reading;
mod decode_fault;
mod decoding;
mod encoding;
mod field;
mod form;
mod framer;
pub mod kinds;
mod laws;
pub mod limits;
mod message;
mod question;
mod rdata;
mod reading;
mod record;
mod texts;

pub use content::{Content, Soa, Texts};
pub use decode_fault::DecodeFault;
pub use decoding::decode;
pub use encoding::{EncodeFault, encode};
pub use framer::Framer;
pub use laws::{message_is_one, read_back, stream_has_one_cut, written_message_is_read_again};
pub use message::{Header, Message};
pub use question::{Question, Questions};
pub use record::{Record, Records};
