//! Why bytes are no message.
ghost use Rattle.std.specs.Prelude.{◌≡◌};

use dns_name::WireFault;
use enum_base::{FaultWords, MemoryFault, fault_at, fault_named};
use rdata_field::InFault;

/// What breaks a message, at the place where the field begins. Places count bytes from the message's start.
#[derive(Clone, Copy, Debug, PartialEq, Eq)]
pub enum DecodeFault {
    /// A field, label or pointer does not lie wholly in the message; for the header the place is 0.
    Short { at: usize },
    /// A length byte whose first two bits are 01 or 10 (RFC 1035, 4.1.4).
    BadLabelType { at: usize },
    /// A pointer to an offset that is not less than the start of the label run that it ends.
    ForwardPointer { at: usize },
    /// A label that would make the name, with its root byte, pass 255 bytes.
    NameTooLong { at: usize },
    /// An RDLENGTH that leads past the end of the message.
    RdataLength { at: usize },
    /// A field, label or pointer of RDATA that does not lie wholly in it, or the place where the content ends before it does.
    RdataShape { at: usize },
    /// Bytes are left after the last record.
    Trailing { at: usize },
    /// Out of memory.
    Memory,
}

impl DecodeFault {
    ghost use Rattle.dns_wire.specs.DecodeFaults.{decode_fault_words};

    /// The fault's name and its place.
    pub fn words(&self) -> FaultWords
        ensures { result ≡ decode_fault_words self.now }
    {
        match self {
            DecodeFault::Short { at } => fault_at("Short", *at),
            DecodeFault::BadLabelType { at } => fault_at("BadLabelType", *at),
            DecodeFault::ForwardPointer { at } => fault_at("ForwardPointer", *at),
            DecodeFault::NameTooLong { at } => fault_at("NameTooLong", *at),
            DecodeFault::RdataLength { at } => fault_at("RdataLength", *at),
            DecodeFault::RdataShape { at } => fault_at("RdataShape", *at),
            DecodeFault::Trailing { at } => fault_at("Trailing", *at),
            DecodeFault::Memory => fault_named("Memory"),
        }
    }
}

impl From<WireFault> for DecodeFault {
    ghost use Rattle.dns_wire.specs.DecodeFaults.{of_name};

    ghost from_gives = { λ fault told. told ≡ of_name fault };

    fn from(fault: WireFault) -> Self {
        match fault {
            WireFault::Short { at } => DecodeFault::Short { at },
            WireFault::BadLabelType { at } => DecodeFault::BadLabelType { at },
            WireFault::ForwardPointer { at } => DecodeFault::ForwardPointer { at },
            WireFault::NameTooLong { at } => DecodeFault::NameTooLong { at },
        }
    }
}

impl From<InFault> for DecodeFault {
    ghost use Rattle.dns_wire.specs.DecodeFaults.{of_rdata};

    ghost from_gives = { λ fault told. told ≡ of_rdata fault };

    fn from(fault: InFault) -> Self {
        match fault {
            InFault::Shape { at } => DecodeFault::RdataShape { at },
            InFault::Name(fault) => DecodeFault::from(fault),
        }
    }
}

impl From<MemoryFault> for DecodeFault {
    ghost use Rattle.dns_wire.specs.declared.decode_fault.DecodeFault.TheVariants.{Memory};

    ghost from_gives = { λ fault told. told ≡ Memory };

    fn from(_fault: MemoryFault) -> Self {
        DecodeFault::Memory
    }
}
