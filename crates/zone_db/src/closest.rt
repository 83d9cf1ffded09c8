//! Which names exist in a zone, and the closest encloser of one that does not (RFC 4592, 2.2.2 and 3.3.1).
ghost use Rattle.std.specs.Prelude.{◌≡◌, ◌↔◌, ◌∷◌, IsTrue};
ghost use Rattle.dns_name.specs.Name.{IsBelow, star};
ghost use Rattle.naptr_data.specs.Zones.{Exists, Encloses};
ghost use Rattle.zone_build.specs.Plain.{plain_of};
ghost use Rattle.zone_db.specs.Seeking.{IsClosest};

use dns_name::Name;
use zone_build::Zone;

/// Whether the name is the apex, or a record stands at or below it.
pub(crate) fn exists(zone: &Zone, name: &Name) -> bool
    requires { IsBelow name.now zone.now.apex }
    ensures { IsTrue result ↔ Exists (plain_of zone.now) name.now }
{
    name.same(&zone.apex()) || zone.has_below(name)
}

/// The longest existing name at or above one that is at or below the apex.
pub(crate) fn closest(zone: &Zone, name: &Name) -> Name
    requires { IsBelow name.now zone.now.apex }
    ensures { IsClosest zone.now name.now result }
{
    if exists(zone, name) {
        return *name;
    }
    match name.parent() {
        Some(above) => closest(zone, &above),
        None => *name,
    }
}

/// The wildcard before the closest encloser of a name.
pub(crate) fn wildcard_before(zone: &Zone, encloser: &Name, name: &Name) -> Name
    requires { Encloses (plain_of zone.now) name.now encloser.now }
    ensures { result ≡ star ∷ encloser.now }
{
    // A label has two bytes or more on the wire, so what is shorter by one has room for the wildcard's.
    let _wire = name.wire();
    match encloser.prepend_star() {
        Ok(wildcard) => wildcard,
        Err(_) => *name,
    }
}
