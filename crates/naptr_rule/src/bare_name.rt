//! The name of RDATA by itself.
ghost use Rattle.std.specs.Prelude.{◌≡◌, ◌+◌, ◌≤◌, length, IfOk};
ghost use Rattle.naptr_rule.specs.Bare.{BareName};
ghost use Rattle.naptr_rule.specs.BareReading.{place_of, cut_fault, bare_fault};

use crate::rdata_fault::{RdataFault, place_of};
use dns_name::{Name, WireFault};

/// The name at that place, which has no pointers, and the place after it. It is read in the bytes from there on, where no pointer has
/// an offset before it.
pub(crate) fn bare_name(bytes: &[u8], at: usize) -> Result<(Name, usize), RdataFault>
    requires { at ≤ length bytes.now }
    ensures name { BareName bytes.now at result }
    ensures within { IfOk result (λ read. read.1 ≤ length bytes.now) }
{
    match Name::read_at(&bytes[at..], 0) {
        Ok((name, size)) => Ok((name, at + size)),
        Err(fault) => Err(bare_fault(bytes, at, fault)),
    }
}

// What breaks the name that begins at a place, by what breaks it in the bytes from there on.
fn bare_fault(bytes: &[u8], from: usize, fault: WireFault) -> RdataFault
    requires { from + place_of fault ≤ length bytes.now }
    ensures { result ≡ bare_fault bytes.now from fault }
{
    let at = from + place_of(fault);
    match fault {
        WireFault::Short { .. } => cut_fault(bytes, at),
        _ => RdataFault::BadName { at },
    }
}

// The label there is cut, or the pointer, whose first byte has its first bits set.
fn cut_fault(bytes: &[u8], at: usize) -> RdataFault
    ensures { result ≡ cut_fault bytes.now at }
{
    if at < bytes.len() && bytes[at] >= 64 {
        return RdataFault::BadName { at };
    }
    RdataFault::Short { at }
}
