//! Why a name in a message is not read.
ghost use Rattle.std.specs.Prelude.{◌≡◌};

use enum_base::{FaultWords, fault_at};

/// What breaks a name in a message, at the place where the label or pointer begins. Places count bytes from the message's start.
#[derive(Clone, Copy, Debug, PartialEq, Eq)]
pub enum WireFault {
    /// It does not lie wholly in the message.
    Short { at: usize },
    /// A length byte whose first two bits are 01 or 10 (RFC 1035, 4.1.4).
    BadLabelType { at: usize },
    /// A pointer to an offset that is not less than the start of the label run that it ends.
    ForwardPointer { at: usize },
    /// A label that would make the name, with its root byte, pass 255 bytes.
    NameTooLong { at: usize },
}

impl WireFault {
    ghost use Rattle.dns_name.specs.FaultWords.{wire_fault};

    /// The fault's name and its place.
    pub fn words(&self) -> FaultWords
        ensures { result ≡ wire_fault self.now }
    {
        match self {
            WireFault::Short { at } => fault_at("Short", *at),
            WireFault::BadLabelType { at } => fault_at("BadLabelType", *at),
            WireFault::ForwardPointer { at } => fault_at("ForwardPointer", *at),
            WireFault::NameTooLong { at } => fault_at("NameTooLong", *at),
        }
    }
}

/// Why a name whose first label run is to end before a place is not read.
#[derive(Clone, Copy, Debug, PartialEq, Eq)]
pub enum WithinFault {
    /// The label or pointer of the first run that begins there does not lie wholly before the end.
    Shape { at: usize },
    /// The name is broken.
    Wire(WireFault),
}
