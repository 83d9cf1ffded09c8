//! What a look-up finds.
use dns_wire::Record;

/// What is found for a name and a kind (RFC 1034, 4.3.2).
#[derive(Clone, Copy)]
pub enum Found<'a> {
    /// No zone has an apex at or above the name.
    Outside,
    /// A cut is at or above the name: the NS set of the highest one.
    Cut(&'a [Record]),
    /// A CNAME is there, and another kind was asked for.
    Alias(&'a [Record]),
    /// The set of the kind; of all kinds the least.
    Set(&'a [Record]),
    /// The name exists, or a wildcard stands for it, and no such set is there: the SOA.
    NoSet(&'a Record),
    /// The name does not exist: the SOA.
    NoName(&'a Record),
}
