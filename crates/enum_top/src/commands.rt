//! The commands, a module each: what a command prints, or why it stops.
pub(crate) mod resolve;
pub(crate) mod show;
