//! How faults of sets of zones are printed.
ghost use Rattle.std.specs.Prelude.{◌≡◌};
ghost use Rattle.zone_db.specs.FaultWords.{add_fault};

use crate::fault::AddFault;
use enum_base::{FaultWords, fault_named};

impl AddFault {
    /// Its name.
    pub fn words(&self) -> FaultWords
        ensures { result ≡ add_fault self.now }
    {
        match self {
            AddFault::SameApex => fault_named("SameApex"),
            AddFault::Full => fault_named("Full"),
            AddFault::Memory => fault_named("Memory"),
        }
    }
}
