//! Domains as keys of a set.
ghost use Rattle.std.specs.Prelude.{nat_eq};
ghost use Rattle.std.proofs.Common.{rules};
ghost use Rattle.std.specs.Cmp.{on_equiv, on_per, partial_equiv_from_equiv};
ghost use Rattle.std.specs.Cmp.Lexicographic.{nat_list_eq_equiv, pointwise};
ghost use Rattle.std.specs.Cmp.Rules.{hashing};
ghost use Rattle.std.specs.Hash as fed;
ghost use Rattle.ddds_walk.specs.Keys.{wire_in};

use dns_name::Name;
use std::hash::{Hash, Hasher};

// A domain as a key: compared and hashed by the bytes of its wire form.
#[derive(Clone, Copy, Debug)]
pub(crate) struct Domain {
    pub(crate) name: Name,
}

impl PartialEq for Domain {
    ghost eq = { λ a b. pointwise nat_eq (wire_in a) (wire_in b) };

    ghost laws = { on_per wire_in (partial_equiv_from_equiv nat_list_eq_equiv) };

    fn eq(&self, other: &Domain) -> bool {
        self.name.wire() == other.name.wire()
    }
}

impl Eq for Domain {
    ghost laws = { on_equiv wire_in nat_list_eq_equiv };
}

impl Hash for Domain {
    ghost hash_input = { λ d. fed.slice fed.u8 (wire_in d) };

    ghost respects_eq = { Prim.search (hashing, rules) };

    fn hash<H: Hasher>(&self, state: &mut H) {
        self.name.wire().hash(state);
    }
}
