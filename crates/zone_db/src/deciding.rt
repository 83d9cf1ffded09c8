//! The zone that decides of a name (RFC 1034, 4.3.2, step 2).
ghost use Rattle.std.specs.Prelude.{◌++◌, ◌∷◌, [], List, Contains};
ghost use Rattle.std.specs.Option.{option_map};
ghost use Rattle.dns_name.specs.Name.{AreSame};
ghost use Rattle.zone_build.specs.Zone as spec;
ghost use Rattle.zone_db.specs.Sets.{AreZones};
ghost use Rattle.zone_db.specs.LookUp.{IsDeciding};

use dns_name::Name;
use zone_build::Zone;

/// Of the zones with an apex at or above the name the one with the longest.
pub(crate) fn deciding_zone<'a>(zones: &'a [Zone], name: &Name) -> Option<&'a Zone>
    requires { AreZones zones.now }
    ensures { IsDeciding zones.now name.now (option_map (λ z. z.now) result) }
{
    let mut best = None;
    for zone in zones {
        best = better(best, zone, name);
    }
    best
}

// The zone that decides of the name, once one more is looked at.
fn better<'a>(best: Option<&'a Zone>, zone: &'a Zone, name: &Name) -> Option<&'a Zone>
    ensures { (zones : List spec.Zone) → ((z : spec.Zone) → Contains zones z → ¬ AreSame z.apex zone.now.apex)
        → IsDeciding zones name.now (option_map (λ z. z.now) best.entry)
        → IsDeciding (zones ++ zone.now ∷ []) name.now (option_map (λ z. z.now) result) }
{
    let apex = zone.apex();
    if !name.is_below(&apex) {
        return best;
    }
    match best {
        Some(known) if known.apex().is_below(&apex) => best,
        _ => Some(zone),
    }
}
