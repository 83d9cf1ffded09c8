//! Faults of sets of zones.

/// Why a zone does not go into a set: the first that holds in this order.
#[derive(Clone, Copy, Debug, PartialEq, Eq)]
pub enum AddFault {
    /// A zone of the same apex is there.
    SameApex,
    /// There are 64 zones, or there would be more than 400,000 records.
    Full,
    /// Out of memory.
    Memory,
}
