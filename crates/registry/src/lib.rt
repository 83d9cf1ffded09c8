//! A registry: a valid zone that is changed by commands, each of which is done or refused and leaves a valid zone.
#![tactic(auto)]

mod changes;
mod copies;
mod fault;
mod filling;
mod fresh;
mod laws;
mod listing;
mod look;
mod place;
mod refusals;
mod registry;
mod set_key;
mod sets;

pub use fault::RegistryFault;
pub use laws::{one_change, one_refusal};
pub use registry::Registry;
