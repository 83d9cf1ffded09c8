//! Why a command is refused.
use enum_base::MemoryFault;
use rule_check::RuleFault;

/// Why a registry refuses a command: the first that holds, in this order.
#[derive(Clone, Copy, Debug, PartialEq, Eq, Drop)]
pub enum RegistryFault {
    /// The rule is not well formed. The fault is never `RuleFault::Memory`.
    IllFormed(RuleFault),
    /// The owner is not at or below the apex, or it is at or below a delegation.
    OutsideZone,
    /// The rule that is to be added is there, or an alias where one is to be set.
    Duplicate,
    /// The rule that is to be removed is not there, or no alias is where one is to be dropped.
    Absent,
    /// A rule is to be added where an alias is, or an alias is to be set where a record is.
    AliasClash,
    /// The set would be too large: the sum of its RDATA, and 265 bytes a record, would pass 60,000.
    SetTooLarge,
    /// Out of memory.
    Memory,
}

impl From<MemoryFault> for RegistryFault {
    ghost use Rattle.std.specs.Prelude.{◌≡◌};
    ghost use Rattle.registry.specs.declared.fault.RegistryFault.{RegistryFault};

    ghost from_gives = { λ e f. f ≡ RegistryFault.Memory };

    fn from(_: MemoryFault) -> Self {
        RegistryFault::Memory
    }
}
