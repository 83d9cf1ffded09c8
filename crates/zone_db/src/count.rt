//! How many rules and CNAMEs zones hold.
ghost use Rattle.std.specs.Prelude.{◌≡◌, ◌++◌, ◌∷◌, []};
ghost use Rattle.naptr_data.specs.Zones.{rules_and_aliases};
ghost use Rattle.zone_build.specs.Plain.{told};
ghost use Rattle.zone_db.specs.Sets.{AreZones, IsFull};

use zone_build::Zone;

/// The rules and CNAMEs of zones and of one more that fits among them.
pub(crate) fn count_with(count: u32, zones: &[Zone], zone: &Zone) -> u32
    requires zones { AreZones zones.now }
    requires fits { ¬ IsFull zones.now zone.now }
    requires count { count ≡ rules_and_aliases (told zones.now) }
    ensures { result ≡ rules_and_aliases (told (zones.now ++ zone.now ∷ [])) }
{
    count + zone.rules_and_aliases() as u32
}
