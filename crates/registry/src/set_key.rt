//! Keys of sets.
ghost use Rattle.std.specs.Prelude.{◌≡◌, Some, refl};
ghost use Rattle.std.specs.Cmp.{eq_by_cmp_equiv, partial_equiv_from_equiv, partial_order_from_total};
ghost use Rattle.std.specs.Ordering.{eq_by_cmp};
ghost use Rattle.dns_name.specs.Name.{folded_labels};
ghost use Rattle.registry.specs.Keys.{key_order, key_total};

use dns_name::Name;
use std::cmp::Ordering;

/// A folded owner and a kind, in the order of sets: by the wire form of the owner, and then by kind.
#[derive(Clone, Copy, Debug)]
pub(crate) struct SetKey {
    owner: Name,
    kind: u16,
}

impl SetKey {
    /// The key of the sets of that owner and kind.
    pub(crate) fn new(owner: &Name, kind: u16) -> SetKey
        ensures owner { result.owner ≡ folded_labels owner.now }
        ensures kind { result.kind ≡ kind }
    {
        SetKey {
            owner: owner.fold(),
            kind,
        }
    }
}

impl PartialEq for SetKey {
    ghost eq = { eq_by_cmp key_order };

    ghost laws = { partial_equiv_from_equiv (eq_by_cmp_equiv key_total) };

    fn eq(&self, other: &SetKey) -> bool {
        matches!(self.cmp(other), Ordering::Equal)
    }
}

impl Eq for SetKey {
    ghost laws = { eq_by_cmp_equiv key_total };
}

impl PartialOrd for SetKey {
    ghost partial_cmp = { λ x y. Some (key_order x y) };

    ghost laws = { partial_order_from_total key_total };

    fn partial_cmp(&self, other: &SetKey) -> Option<Ordering> {
        Some(self.cmp(other))
    }
}

impl Ord for SetKey {
    ghost cmp = { key_order };

    ghost total = { key_total };

    ghost matches_partial_cmp = { λ x y. refl };

    ghost matches_eq = { λ x y. refl };

    fn cmp(&self, other: &SetKey) -> Ordering {
        match self.owner.wire().cmp(other.owner.wire()) {
            Ordering::Equal => self.kind.cmp(&other.kind),
            apart => apart,
        }
    }
}
