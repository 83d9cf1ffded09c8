//! Why a text is no name.
ghost use Rattle.std.specs.Prelude.{◌≡◌};

use enum_base::{FaultWords, fault_at, fault_named};

/// The first fault of a text by place, then the two of the whole. Places count bytes from the start.
#[derive(Clone, Copy, Debug, PartialEq, Eq)]
pub enum NameFault {
    /// A label without bytes, where it begins; the empty text is one at 0.
    EmptyLabel { at: usize },
    /// A label of more than 63 bytes, where it begins.
    LabelTooLong { at: usize },
    /// More than 255 bytes on the wire.
    NameTooLong,
    /// A `\` that ends the text, or a digit after it that does not begin three digits of at most 255.
    BadEscape { at: usize },
    /// A relative text, and no origin.
    NoOrigin,
}

impl NameFault {
    ghost use Rattle.dns_name.specs.FaultWords.{name_fault};

    /// The fault's name, and its place after a space where it has one.
    pub fn words(&self) -> FaultWords
        ensures { result ≡ name_fault self.now }
    {
        match self {
            NameFault::EmptyLabel { at } => fault_at("EmptyLabel", *at),
            NameFault::LabelTooLong { at } => fault_at("LabelTooLong", *at),
            NameFault::NameTooLong => fault_named("NameTooLong"),
            NameFault::BadEscape { at } => fault_at("BadEscape", *at),
            NameFault::NoOrigin => fault_named("NoOrigin"),
        }
    }
}
