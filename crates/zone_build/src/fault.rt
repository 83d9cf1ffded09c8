//! Faults of zones, and how they are printed.
ghost use Rattle.std.specs.Prelude.{◌≡◌, ◌≤◌, length};
ghost use Rattle.zone_build.specs.FaultWords.{zone_fault, fault_of, set_fault};

use dns_name::Name;
use enum_base::{FaultWords, MemoryFault, fault_at, fault_named};

/// Why records make no zone: the first that holds in this order.
#[derive(Clone, Copy, Debug, PartialEq, Eq)]
pub enum ZoneFault {
    /// There is no SOA.
    NoSoa,
    /// There are two SOA records that differ in owner or in RDATA.
    TwoSoa,
    /// A record, the first by its place in the list, is not at or below the owner of the SOA.
    OutOfZone { place: usize },
    /// An owner, the first in the list, has a CNAME beside anything else.
    AliasClash { name: Name },
    /// A set, the first in canonical order, is too large: the sum of its RDATA, and 265 bytes a record, passes 60,000.
    SetTooLarge { name: Name, kind: u16 },
    /// An NS owner, the first in the list, has `*` as its first label.
    WildcardCut { name: Name },
    /// Out of memory.
    Memory,
}

impl From<MemoryFault> for ZoneFault {
    ghost use Rattle.std.specs.Prelude.{◌≡◌};
    ghost use Rattle.zone_build.specs.declared.fault.ZoneFault.{ZoneFault};

    ghost from_gives = { λ e f. f ≡ ZoneFault.Memory };

    fn from(_: MemoryFault) -> Self {
        ZoneFault::Memory
    }
}

impl ZoneFault {
    /// Its name and its fields, with a space before each. Names are folded already.
    pub fn words(&self) -> FaultWords
        ensures { result ≡ zone_fault self.now }
    {
        match self {
            ZoneFault::NoSoa => fault_named("NoSoa"),
            ZoneFault::TwoSoa => fault_named("TwoSoa"),
            ZoneFault::OutOfZone { place } => fault_at("OutOfZone", *place),
            ZoneFault::AliasClash { name } => fault_of("AliasClash", name),
            ZoneFault::SetTooLarge { name, kind } => set_fault(name, *kind),
            ZoneFault::WildcardCut { name } => fault_of("WildcardCut", name),
            ZoneFault::Memory => fault_named("Memory"),
        }
    }
}

// A fault by its name, of at most 40 bytes, and the name of an owner.
fn fault_of(said: &str, owner: &Name) -> FaultWords
    requires { length said.now ≤ 40 }
    ensures words { result ≡ fault_of said.now owner.now }
    ensures most { length result ≤ 1065 }
{
    let text = owner.text();
    let mut words = fault_named(said);
    words.push(b' ');
    words.push_slice(text.as_slice());
    words
}

// A set that is too large, by its owner and its kind.
fn set_fault(owner: &Name, kind: u16) -> FaultWords
    ensures { result ≡ set_fault owner.now kind }
{
    let mut words = fault_of("SetTooLarge", owner);
    words.push(b' ');
    words.push_number(kind);
    words
}
