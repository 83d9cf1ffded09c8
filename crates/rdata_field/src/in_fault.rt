//! Why RDATA in a message is not read.

use dns_name::{WireFault, WithinFault};

/// What breaks RDATA in a message. Places count bytes from the message's start.
#[derive(Clone, Copy, Debug, PartialEq, Eq)]
pub enum InFault {
    /// The field, label or pointer that begins there does not lie wholly in the RDATA, or the last field ends there and the RDATA
    /// does not.
    Shape { at: usize },
    /// A name is broken.
    Name(WireFault),
}

impl From<WithinFault> for InFault {
    ghost use Rattle.std.specs.Prelude.{◌≡◌};
    ghost use Rattle.rdata_field.specs.Fields.{in_fault};

    ghost from_gives = { λ fault told. told ≡ in_fault fault };

    fn from(fault: WithinFault) -> Self {
        match fault {
            WithinFault::Shape { at } => InFault::Shape { at },
            WithinFault::Wire(fault) => InFault::Name(fault),
        }
    }
}
