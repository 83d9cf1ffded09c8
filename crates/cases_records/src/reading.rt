//! The records of zone texts.
ghost use Rattle.std.specs.Prelude.{IfOk, Contains};
ghost use Rattle.dns_wire.specs.declared.record.Record as spec;
ghost use Rattle.zone_build.specs.Zone.{IsPlain};

use dns_name::Name;
use dns_wire::Records;
use std::alloc::Global;
use zone_text::{TextFault, ZoneReader};

/// The records of a text that is fed in pieces of so many bytes, at least one.
pub fn read_records(
    alloc: Global,
    origin: Name,
    text: &[u8],
    size: usize,
) -> Result<Records, TextFault>
    ensures plain { IfOk result (λ records. (one : spec.Record) → Contains records one → IsPlain one) }
{
    let mut reader = ZoneReader::new(alloc, origin);
    for piece in text.chunks(size.max(1)) {
        if reader.feed(piece).is_err() {
            return records_of(reader);
        }
    }
    records_of(reader)
}

/// The records at the end of a text.
#[tactic(auto, using(crate::proofs::PlainLemmas::plain))]
pub fn records_of(reader: ZoneReader) -> Result<Records, TextFault>
    ensures plain { IfOk result (λ records. (one : spec.Record) → Contains records one → IsPlain one) }
{
    reader.end()
}
