//! Substitutions of NAPTR rules: the text between delimiters, split into an expression, a replacement
//! and flags, checked, and applied to an original string (RFC 3402).
#![tactic(auto)]

mod expand;
pub mod laws;
mod regexp;
mod rule;
mod scan;
mod subst;

pub use regexp::{RegexpFault, check};
pub use rule::{Applied, ApplyFault, apply};
pub use subst::{Subst, SubstFault};
