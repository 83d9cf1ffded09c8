//! Why a text is no domain.
ghost use Rattle.std.specs.Prelude.{◌≡◌};
ghost use Rattle.snaptr_app.specs.FaultWords.{domain_fault_words};

use dns_name::NameFault;
use enum_base::{FaultWords, fault_at, fault_named};

/// The first fault in this order; places are counted in bytes from 0.
#[derive(Clone, Copy, Debug, PartialEq, Eq)]
pub enum DomainFault {
    /// There is no byte.
    Empty,
    /// There are more than 255 bytes.
    TooLong,
    /// The first byte outside `!` to `~` is at this place.
    NotPrintable { at: usize },
    /// It is no name.
    BadName(NameFault),
}

impl From<NameFault> for DomainFault {
    ghost use Rattle.snaptr_app.specs.declared.fault.DomainFault.TheVariants.{BadName};

    ghost from_gives = { λ name fault. fault ≡ BadName name };

    fn from(fault: NameFault) -> Self {
        DomainFault::BadName(fault)
    }
}

impl DomainFault {
    /// How it is printed: its name and its place where it has one, and for a text that is no name those of the
    /// name's fault.
    pub fn words(&self) -> FaultWords
        ensures { result ≡ domain_fault_words self.now }
    {
        match self {
            DomainFault::Empty => fault_named("Empty"),
            DomainFault::TooLong => fault_named("TooLong"),
            DomainFault::NotPrintable { at } => fault_at("NotPrintable", *at),
            DomainFault::BadName(fault) => fault.words(),
        }
    }
}
