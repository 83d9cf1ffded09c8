//! Lists of rules.

use enum_base::List;
use naptr_rule::Naptr;

/// A list of rules.
pub type Rules = List<Naptr>;
