//! Look-up in one zone (RFC 1034, 4.3.2; RFC 4592).
ghost use Rattle.dns_name.specs.Name.{IsBelow};
ghost use Rattle.naptr_data.specs.Zones.{IsSource};
ghost use Rattle.zone_build.specs.Plain.{plain_of};
ghost use Rattle.zone_db.specs.Seeking.{IsFoundIn, IsUncut};

use crate::answer::answer;
use crate::closest::{closest, exists, wildcard_before};
use crate::cut::highest_cut;
use crate::found::Found;
use crate::soa::soa_of;
use dns_name::Name;
use zone_build::Zone;

/// What is found for a name at or below the apex.
pub(crate) fn found_in<'a>(zone: &'a Zone, name: &Name, asked: u16) -> Found<'a>
    requires { IsBelow name.now zone.now.apex }
    ensures { IsFoundIn zone.now name.now asked result }
{
    match highest_cut(zone, name) {
        Some(cut) => Found::Cut(zone.set(&cut.owner, 2)),
        None => found_at(zone, name, &source_of(zone, name), asked),
    }
}

// The name itself where it exists, else the wildcard before its closest encloser.
fn source_of(zone: &Zone, name: &Name) -> Name
    requires { IsBelow name.now zone.now.apex }
    ensures { IsSource (plain_of zone.now) name.now result }
{
    if exists(zone, name) {
        return *name;
    }
    let encloser = closest(zone, name);
    wildcard_before(zone, &encloser, name)
}

// What is found for a name that no cut is at or above, at its source.
fn found_at<'a>(zone: &'a Zone, name: &Name, source: &Name, asked: u16) -> Found<'a>
    requires inside { IsBelow name.now zone.now.apex }
    requires uncut { IsUncut zone.now name.now }
    requires source { IsSource (plain_of zone.now) name.now source.now }
    ensures { IsFoundIn zone.now name.now asked result }
{
    if exists(zone, source) {
        return answer(zone, source, asked);
    }
    Found::NoName(soa_of(zone))
}
