//! ENUM (RFC 6116): telephone numbers, their keys, and what ENUM makes of flags and services.
#![tactic(auto)]

mod app;
mod laws;
mod number;

pub use app::EnumApp;
pub use laws::services_serve_where_they_fit;
pub use number::{Number, NumberFault, default_apex};
