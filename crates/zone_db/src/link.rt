//! Links to a server.
ghost use Rattle.std.specs.Prelude.{◌≡◌, ◌≤◌, length};
ghost use Rattle.enum_base.specs.Causes.{HasCause};
ghost use Rattle.zone_db.specs.Links.{LinkState, Exchanges, IsAimed, TellsSet};

use crate::way::Way;
use enum_base::Failed;

/// How many exchanges were begun, and how many calls failed; each stays at its greatest value.
#[derive(Clone, Copy, Debug, PartialEq, Eq)]
pub struct Counts {
    pub exchanges: u64,
    pub faults: u64,
}

/// A way to ask one server. Every link counts its exchanges and keeps the last query; zones are told by those in memory
/// alone.
pub trait Link {
    /// What it tells.
    ghost state: { Self → LinkState };

    /// Takes the address of the server: a dotted quad, `:` and a port.
    ///
    /// # Errors
    /// The server cannot be aimed at.
    fn aim(&mut self, address: &str) -> Result<(), Failed>
        ensures aimed { IsAimed (state self.old) (state self.new) }
        ensures cause { HasCause (state self.old).faults (state self.new).faults result };

    /// Sends a query of at most 512 bytes, and holds the reply that comes.
    ///
    /// # Errors
    /// No reply came; over zones that are told also where nothing is said to the query.
    fn exchange(&mut self, way: Way, query: &[u8]) -> Result<(), Failed>
        requires { length query.now ≤ 512 }
        ensures exchanged { Exchanges (state self.old) (state self.new) way query.now result }
        ensures cause { HasCause (state self.old).faults (state self.new).faults result };

    /// Both counts as they stand. Takes no memory.
    fn counts(&self) -> Counts
        ensures counts { result ≡ record { exchanges = (state self.now).exchanges; faults = (state self.now).faults } }
        ensures set { TellsSet (state self.now) };

    /// The last reply that came.
    fn held(&self) -> &[u8]
        ensures { result.now ≡ (state self.now).held };
}
