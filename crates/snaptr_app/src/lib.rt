//! S-NAPTR (RFC 3958) and U-NAPTR (RFC 4848): domains, and what the two make of flags and services.
#![tactic(auto)]

mod app;
mod domain;
mod fault;
mod flags;
mod laws;
mod services;

pub use app::{SnaptrApp, UnaptrApp};
pub use domain::Domain;
pub use fault::DomainFault;
pub use laws::services_serve_where_they_fit;
