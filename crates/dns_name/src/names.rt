//! Lists of names.

use crate::name::Name;
use enum_base::List;

/// A list of names.
pub type Names = List<Name>;
