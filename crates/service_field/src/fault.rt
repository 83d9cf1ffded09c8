//! Why a services field or a wanted list is not well formed.
ghost use Rattle.std.specs.Prelude.{◌≡◌};
ghost use Rattle.service_field.specs.FaultWords.{service_fault};

use enum_base::{FaultWords, fault_at, fault_named};

/// The first fault from left to right. Places count bytes from the start.
#[derive(Clone, Copy, Debug, PartialEq, Eq)]
pub enum ServiceFault {
    /// There is no byte.
    Empty,
    /// It does not begin with `E2U`.
    NoE2u,
    /// No tag begins at this place, where one must.
    BadTag { at: usize },
    /// The tag that begins at this place has more than 32 bytes.
    TagTooLong { at: usize },
    /// The byte at this place, after a tag or after `E2U`, goes on with nothing.
    Trailing { at: usize },
}

impl ServiceFault {
    /// How it is printed: its name, and its place where it has one.
    pub fn words(&self) -> FaultWords
        ensures { result ≡ service_fault self.now }
    {
        match *self {
            ServiceFault::Empty => fault_named("Empty"),
            ServiceFault::NoE2u => fault_named("NoE2u"),
            ServiceFault::BadTag { at } => fault_at("BadTag", at),
            ServiceFault::TagTooLong { at } => fault_at("TagTooLong", at),
            ServiceFault::Trailing { at } => fault_at("Trailing", at),
        }
    }
}
