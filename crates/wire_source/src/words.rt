//! How troubles are printed.
ghost use Rattle.std.specs.Prelude.{◌≡◌};
ghost use Rattle.wire_source.specs.FaultWords.{trouble_words};

use crate::trouble::Trouble;
use enum_base::{FaultWords, fault_at, fault_named};

impl Trouble {
    /// The name of the innermost fault and its fields.
    pub fn words(&self) -> FaultWords
        ensures { result ≡ trouble_words self.now }
    {
        match self {
            Trouble::LinkFault => fault_named("LinkFault"),
            Trouble::BadReply(fault) => fault.words(),
            Trouble::WrongReply => fault_named("WrongReply"),
            Trouble::Server { rcode } => fault_at("Server", usize::from(*rcode)),
        }
    }
}
