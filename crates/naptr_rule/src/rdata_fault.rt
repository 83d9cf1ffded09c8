//! Why RDATA by itself is no rule.

ghost use Rattle.std.specs.Prelude.{◌≡◌};

use dns_name::WireFault;
use rdata_field::InFault;

/// What breaks the RDATA of a rule. Places count bytes from its start.
#[derive(Clone, Copy, Debug, PartialEq, Eq)]
pub enum RdataFault {
    /// The field or label that begins there does not lie wholly in the RDATA.
    Short { at: usize },
    /// The length byte there has one of its first two bits set, as that of a pointer has, or begins a label that would make the
    /// name pass 255 bytes.
    BadName { at: usize },
    /// The name ends there, and the RDATA does not.
    Trailing { at: usize },
}

impl From<InFault> for RdataFault {
    ghost use Rattle.naptr_rule.specs.BareReading.{rdata_fault};

    ghost from_gives = { λ fault told. told ≡ rdata_fault fault };

    fn from(fault: InFault) -> Self {
        match fault {
            InFault::Shape { at } => RdataFault::Short { at },
            InFault::Name(fault) => RdataFault::BadName {
                at: place_of(fault),
            },
        }
    }
}

ghost use Rattle.naptr_rule.specs.BareReading.{place_of};

/// The place of what breaks a name.
pub(crate) fn place_of(fault: WireFault) -> usize
    ensures { result ≡ place_of fault }
{
    match fault {
        WireFault::Short { at } => at,
        WireFault::BadLabelType { at } => at,
        WireFault::ForwardPointer { at } => at,
        WireFault::NameTooLong { at } => at,
    }
}
