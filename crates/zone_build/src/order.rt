//! The order of records by owner and kind, and of owners.
ghost use Rattle.std.specs.Prelude.{◌≡◌};
ghost use Rattle.std.specs.Ordering.{nat_cmp};
ghost use Rattle.std.specs.Cmp.Lexicographic.{slice_cmp};
ghost use Rattle.std.specs.declared.cmp.Ordering.TheVariants.{Equal};
ghost use Rattle.dns_name.specs.Name.{wire_of, folded_labels, AreSame};
ghost use Rattle.zone_build.specs.Zone.{AreOneSet};
ghost use Rattle.zone_build.specs.Building.{key_order};
ghost use Rattle.zone_build.specs.declared.entry.Key.TheVariants.{Set};

use dns_name::Name;
use dns_wire::Record;
use std::cmp::Ordering;

/// The order by owner and kind.
pub(crate) fn cmp_sets(one: &Record, other: &Record) -> Ordering
    ensures order { result ≡ key_order Set one.now other.now }
    ensures alike { result ≡ Equal → AreOneSet one.now other.now }
{
    let (kind, other_kind) = (one.kind, other.kind);
    match cmp_owners(&one.owner, &other.owner) {
        Ordering::Equal => kind.cmp(&other_kind),
        apart => apart,
    }
}

/// The order of the folded wire forms.
pub(crate) fn cmp_owners(one: &Name, other: &Name) -> Ordering
    ensures order { result ≡ slice_cmp nat_cmp (wire_of (folded_labels one.now)) (wire_of (folded_labels other.now)) }
    ensures same { result ≡ Equal → AreSame one.now other.now }
{
    // That both are names is a clause of `wire`.
    let (_wire, _other_wire) = (one.wire(), other.wire());
    one.cmp_folded(other)
}
