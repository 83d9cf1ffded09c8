//! Cuts of a zone (RFC 1034, 4.2.1).
ghost use Rattle.std.specs.Option.{option_map};
ghost use Rattle.dns_name.specs.Name.{IsBelow};
ghost use Rattle.zone_db.specs.Seeking.{IsHighest, IsNsAt};

use dns_name::Name;
use dns_wire::Record;
use zone_build::Zone;

/// An NS record of the highest cut at or above the name.
pub(crate) fn highest_cut<'a>(zone: &'a Zone, name: &Name) -> Option<&'a Record>
    requires { IsBelow name.now zone.now.apex }
    ensures { IsHighest zone.now.records zone.now.apex name.now (option_map (λ r. r.now) result) }
{
    if name.same(&zone.apex()) {
        return None;
    }
    match name.parent() {
        Some(above) => match highest_cut(zone, &above) {
            Some(cut) => Some(cut),
            None => ns_at(zone, name),
        },
        None => None,
    }
}

// An NS record at the name.
fn ns_at<'a>(zone: &'a Zone, name: &Name) -> Option<&'a Record>
    ensures { IsNsAt zone.now.records name.now (option_map (λ r. r.now) result) }
{
    let set = zone.set(name, 2);
    if set.len() > 0 {
        return Some(&set[0]);
    }
    None
}
