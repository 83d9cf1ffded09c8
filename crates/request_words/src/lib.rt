//! The words of a command, and the request that they are.
#![tactic(auto)]

mod laws;
mod option;
mod places;
mod request;
mod row;
mod words;

pub use laws::{all_values, few_apexes, one_request};
pub use places::Places;
pub use request::{AppName, Origin, Request, Resolution};
pub use words::{Usage, read_words, text_at};
