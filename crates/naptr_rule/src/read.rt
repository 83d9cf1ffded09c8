//! Rules read from their RDATA.
ghost use Rattle.std.specs.Prelude.{◌≡◌, ◌↔◌, ◌≤◌, length, Ok, Err, IfOk};
ghost use Rattle.naptr_rule.specs.Fields.{FrontIn, RuleIn};
ghost use Rattle.naptr_rule.specs.Bare.{BareRule};
ghost use Rattle.rdata_field.specs.declared.in_fault.InFault.{InFault};
ghost use Rattle.naptr_rule.specs.declared.rdata_fault.RdataFault.{RdataFault};
ghost use Rattle.naptr_rule.specs.declared.rule.Naptr.{Naptr};

use crate::bare_name::bare_name;
use crate::rdata_fault::RdataFault;
use crate::rule::Naptr;
use dns_name::{MessageBytes, Name};
use rdata_field::{InFault, ends_in, name_in, text_in, u16_in};

impl Naptr {
    ghost use Rattle.naptr_rule.specs.Rdata.{rdata, IsRule};

    /// The rule of the RDATA between two places of a message, where its name may have pointers (RFC 3403, 4.1; RFC 1035, 4.1.4).
    ///
    /// # Errors
    /// The first field that cannot be read: `Shape` where it, or a label or pointer of the name's first run, does not lie wholly before
    /// `to`, or at the end of the name where that is not `to`; `Name` where the name is broken otherwise.
    pub fn read_in(message: &[u8], from: usize, to: usize) -> Result<Naptr, InFault>
        requires begin { from ≤ to }
        requires end { to ≤ length message.now }
        ensures rule { (rule : Naptr) → (result ≡ Ok rule) ↔ RuleIn message.now from to (Ok rule) }
        ensures fault { (fault : InFault) → (result ≡ Err fault) ↔ RuleIn message.now from to (Err fault) }
    {
        let whole = MessageBytes::new(message);
        rule_in(&whole, from, to)
    }

    /// The rule of these bytes, which are its whole RDATA. A pointer in its name is `BadName`.
    ///
    /// # Errors
    /// The first field or label that cannot be read, or `Trailing` where bytes are left after the name.
    pub fn read(bytes: &[u8]) -> Result<Naptr, RdataFault>
        ensures rule { (rule : Naptr) → (result ≡ Ok rule) ↔ (IsRule rule × (bytes.now ≡ rdata rule)) }
        ensures fault { (fault : RdataFault) → (result ≡ Err fault) ↔ BareRule bytes.now (Err fault) }
    {
        read_inner(bytes)
    }
}

/// The rule of the RDATA between two places of a message, as `Naptr::read_in` reads it.
///
/// # Errors
/// As `Naptr::read_in`.
pub fn rule_in(message: &MessageBytes<'_>, from: usize, to: usize) -> Result<Naptr, InFault>
    requires begin { from ≤ to }
    requires end { to ≤ length message.now }
    ensures { RuleIn message.now from to result }
{
    let (front, at) = front_in(message, from, to)?;
    let (replacement, at) = name_in(message, at, to)?;
    ends_in(
        Naptr {
            replacement,
            ..front
        },
        at,
        to,
    )
}

// The rule of RDATA by itself, by one clause.
fn read_inner(bytes: &[u8]) -> Result<Naptr, RdataFault>
    ensures { BareRule bytes.now result }
{
    let to = bytes.len();
    let whole = MessageBytes::new(bytes);
    let (front, at) = front_in(&whole, 0, to)?;
    let (replacement, at) = bare_name(bytes, at)?;
    if at < to {
        return Err(RdataFault::Trailing { at });
    }
    Ok(Naptr {
        replacement,
        ..front
    })
}

// The fields before the name, in a rule whose name is the root, and the place after them.
fn front_in(message: &MessageBytes<'_>, from: usize, to: usize) -> Result<(Naptr, usize), InFault>
    requires begin { from ≤ to }
    requires end { to ≤ length message.now }
    ensures front { FrontIn message.now to from result }
    ensures within { IfOk result (λ read. read.1 ≤ to) }
{
    let (order, at) = u16_in(message, from, to)?;
    let (preference, at) = u16_in(message, at, to)?;
    let (flags, at) = text_in(message, at, to)?;
    let (services, at) = text_in(message, at, to)?;
    let (regexp, at) = text_in(message, at, to)?;
    let front = Naptr {
        order,
        preference,
        flags,
        services,
        regexp,
        replacement: Name::root(),
    };
    Ok((front, at))
}
