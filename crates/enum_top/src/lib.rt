//! The top call: all that the program does, from its words to its status.
#![tactic(auto)]

mod cause;
mod commands;
mod domains;
mod input;
mod inquiry;
mod laws;
mod objects;
mod status;
mod top;
mod why;
mod zone_file;
mod zones;

pub use cause::Cause;
pub use laws::{early_verdict, one_verdict, some_verdict};
pub use objects::Object;
pub use request_words::{AppName, Origin, Places, Request, Resolution, Usage, read_words};
pub use status::{Ending, Status};
pub use top::run;
pub use why::Why;
