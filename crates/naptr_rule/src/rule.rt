//! NAPTR rules.
ghost use Rattle.std.specs.Prelude.{◌≡◌, ◌≤◌, ◌++◌, length, OnOk, OnErr};

use crate::written::{Written, push_string};
use dns_name::Name;
use enum_base::{Bytes, MemoryFault, Text255};
use std::cmp::Ordering;

/// A rule: the six fields of a NAPTR record (RFC 3403, 4.1).
#[derive(Clone, Copy, Debug, PartialEq, Eq)]
pub struct Naptr {
    /// Rules of lesser ORDER come first; those of a greater one are used only where none of it serves.
    pub order: u16,
    /// Among rules of one ORDER those of lesser PREFERENCE come first.
    pub preference: u16,
    pub flags: Text255,
    pub services: Text255,
    pub regexp: Text255,
    pub replacement: Name,
}

impl Naptr {
    ghost use Rattle.naptr_rule.specs.Rank.{rank_of};
    ghost use Rattle.naptr_rule.specs.Rdata.{rdata, IsRule};

    /// Appends the RDATA, the name without compression (RFC 3403, 4.1).
    pub fn write(&self, out: &mut Bytes) -> Result<(), MemoryFault>
        ensures ok { OnOk result (out.new ≡ out.old ++ rdata self.now) }
        ensures err { OnErr result (out.new ≡ out.old) }
        ensures rule { IsRule self.now }
    {
        let mut written = Written::new();
        written.push_slice(&self.order.to_be_bytes());
        written.push_slice(&self.preference.to_be_bytes());
        push_string(&mut written, &self.flags);
        push_string(&mut written, &self.services);
        push_string(&mut written, &self.regexp);
        written.push_slice(self.replacement.wire());
        out.push_slice(written.as_slice())
    }

    /// The order of rules: by ORDER, then PREFERENCE, then the RDATA byte by byte.
    pub fn cmp_rank(&self, other: &Naptr) -> Ordering
        ensures order { result ≡ rank_of self.now other.now }
        ensures rules { IsRule self.now × IsRule other.now }
    {
        let (order, preference) = (self.order, self.preference);
        let (other_order, other_preference) = (other.order, other.preference);
        order
            .cmp(&other_order)
            .then(preference.cmp(&other_preference))
            .then(cmp_string(&self.flags, &other.flags))
            .then(cmp_string(&self.services, &other.services))
            .then(cmp_string(&self.regexp, &other.regexp))
            .then(self.replacement.wire().cmp(other.replacement.wire()))
    }
}

ghost use Rattle.std.specs.Ordering.{nat_cmp};
ghost use Rattle.std.specs.Cmp.Lexicographic.{slice_cmp};
ghost use Rattle.rdata_field.specs.Strings.{string_wire};

// The order of two character-strings on the wire, where the length byte comes first.
fn cmp_string(one: &Text255, other: &Text255) -> Ordering
    ensures order { result ≡ slice_cmp nat_cmp (string_wire one.now) (string_wire other.now) }
    ensures short { (length one.now ≤ 255) × (length other.now ≤ 255) }
{
    let (one, other) = (one.as_bytes(), other.as_bytes());
    one.len().cmp(&other.len()).then(one.cmp(other))
}
