//! What a look-up found.

use dns_wire::Record;
use std::slice::from_ref;
use zone_db::Found;

/// The case.
pub fn case_of(found: &Found<'_>) -> &'static str {
    match found {
        Found::Outside => "outside",
        Found::Cut(_) => "cut",
        Found::Alias(_) => "alias",
        Found::Set(_) => "set",
        Found::NoSet(_) => "no set",
        Found::NoName(_) => "no name",
    }
}

/// The records: a set, or the SOA, or none.
pub fn records_found(found: Found<'_>) -> &[Record] {
    match found {
        Found::Outside => &[],
        Found::Cut(set) | Found::Alias(set) | Found::Set(set) => set,
        Found::NoSet(soa) | Found::NoName(soa) => from_ref(soa),
    }
}
