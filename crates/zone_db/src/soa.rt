//! The SOA of a zone.
ghost use Rattle.zone_db.specs.LookUp.{IsSoaOf};

use dns_wire::Record;
use zone_build::Zone;

/// The SOA.
pub(crate) fn soa_of(zone: &Zone) -> &Record
    ensures { IsSoaOf zone.now result.now }
{
    &zone.records()[0]
}
