//! The services field of NAPTR rules, wanted services, and what an application of the DDDS algorithm tells (RFC 3402).
#![tactic(auto)]

mod alphabet;
mod app;
mod fault;
mod fitting;
mod form;
mod kind;
mod laws;
mod services;
mod snaptr_services;
mod tags;
mod wanted;

pub use app::DddsApp;
pub use fault::ServiceFault;
pub use fitting::{fits_enum, fits_snaptr};
pub use kind::Kind;
pub use laws::{one_spelling, services_ignore_case, wanted_ignores_case};
pub use services::{EnumServices, read_enum};
pub use snaptr_services::{SnaptrServices, read_snaptr};
pub use wanted::{Wanted, want_enum, want_snaptr};
