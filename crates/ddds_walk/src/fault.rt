//! Why a walk ends without an answer.

use enum_base::MemoryFault;

/// Why a walk has no answer.
#[derive(Clone, Copy, Debug, PartialEq, Eq)]
pub enum WalkFault {
    /// So many domains were asked as the limit allows, and a further one is needed.
    Limit { asked: u32 },
    /// The source had trouble.
    Trouble,
    /// Memory is wanting.
    Memory,
}

impl From<MemoryFault> for WalkFault {
    ghost use Rattle.std.specs.Prelude.{◌≡◌};
    ghost use Rattle.ddds_walk.specs.declared.fault.WalkFault.TheVariants.{Memory};

    ghost from_gives = { λ _ f. f ≡ Memory };

    fn from(_: MemoryFault) -> WalkFault {
        WalkFault::Memory
    }
}
