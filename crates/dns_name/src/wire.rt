//! Names in messages.
ghost use Rattle.std.specs.Prelude.{◌≡◌, ◌↔◌, ◌<◌, ◌≤◌, List, ℕ, length, IfOk, IfErr, OnOk, MatchOption};
ghost use Rattle.dns_name.specs.Fields.{IsAnswer, IsWithin, cut_place};
ghost use Rattle.dns_name.specs.Targets.{AreTargets};
ghost use Rattle.dns_name.specs.Wire.{RunIsCut};

use crate::field::{Field, field_at};
use crate::message_bytes::MessageBytes;
use crate::name::Name;
use crate::targets::target_of;
use crate::wire_fault::{WireFault, WithinFault};
use enum_base::Buffer;

impl Name {
    ghost use Rattle.dns_name.specs.Wire.{NameAt, NameBreaks, NameWithin, WithinBreaks};

    /// The name at that place of a message, and the place after it: after its first pointer, or where it has none after its
    /// root (RFC 1035, 4.1.4). A pointer leads to an offset less than the start of the label run that it ends.
    ///
    /// # Errors
    /// The first label or pointer in the order of reading that cannot be read, with its place.
    pub fn read_at(message: &[u8], at: usize) -> Result<(Name, usize), WireFault>
        requires { at ≤ length message.now }
        ensures name { (labels : List (List ℕ)) (next : ℕ) → (result ≡ Ok (labels, next)) ↔ NameAt message.now at labels next }
        ensures fault { (fault : WireFault) → (result ≡ Err fault) ↔ NameBreaks message.now at fault }
        ensures within { IfOk result (λ read. (at < read.1) × (read.1 ≤ length message.now)) }
    {
        read_inner(message, &[], at)
    }

    /// The name at that place, whose first label run lies before `to`. Runs that pointers lead to begin before the run that the
    /// pointer ends, and may pass `to`.
    ///
    /// # Errors
    /// `Shape` where a label or pointer of the first run does not lie wholly before `to`, else as `read_at`.
    pub fn read_within(message: &[u8], at: usize, to: usize) -> Result<(Name, usize), WithinFault>
        requires begin { at ≤ to }
        requires end { to ≤ length message.now }
        ensures name { (labels : List (List ℕ)) (next : ℕ) → (result ≡ Ok (labels, next)) ↔ NameWithin message.now at to labels next }
        ensures fault { (fault : WithinFault) → (result ≡ Err fault) ↔ WithinBreaks message.now at to fault }
        ensures within { IfOk result (λ read. (at < read.1) × (read.1 ≤ to)) }
    {
        within_inner(message, &[], at, to)
    }
}

impl MessageBytes<'_> {
    ghost use Rattle.dns_name.specs.Wire.{NameAt, NameBreaks, NameWithin, WithinBreaks};

    /// The same as `Name::read_at`: the name at that place, and the place after it.
    ///
    /// # Errors
    /// As `Name::read_at`.
    pub fn name_at(&self, at: usize) -> Result<(Name, usize), WireFault>
        requires { at ≤ length self.now }
        ensures name { (labels : List (List ℕ)) (next : ℕ) → (result ≡ Ok (labels, next)) ↔ NameAt self.now at labels next }
        ensures fault { (fault : WireFault) → (result ≡ Err fault) ↔ NameBreaks self.now at fault }
        ensures within { IfOk result (λ read. (at < read.1) × (read.1 ≤ length self.now)) }
    {
        read_inner(self.bytes, self.targets(), at)
    }

    /// The same as `Name::read_within`: the name at that place, whose first label run lies before `to`.
    ///
    /// # Errors
    /// As `Name::read_within`.
    pub fn name_within(&self, at: usize, to: usize) -> Result<(Name, usize), WithinFault>
        requires begin { at ≤ to }
        requires end { to ≤ length self.now }
        ensures name { (labels : List (List ℕ)) (next : ℕ) → (result ≡ Ok (labels, next)) ↔ NameWithin self.now at to labels next }
        ensures fault { (fault : WithinFault) → (result ≡ Err fault) ↔ WithinBreaks self.now at to fault }
        ensures within { IfOk result (λ read. (at < read.1) × (read.1 ≤ to)) }
    {
        within_inner(self.bytes, self.targets(), at, to)
    }
}

// The name whose first label run lies before `to`, and the place after it, by one clause.
fn within_inner(
    message: &[u8],
    targets: &[u16],
    at: usize,
    to: usize,
) -> Result<(Name, usize), WithinFault>
    requires begin { at ≤ to }
    requires end { to ≤ length message.now }
    requires targets { AreTargets message.now targets.now }
    ensures { IsWithin message.now at to result }
{
    if let Some(place) = cut_in_run(&message[..to], at) {
        return Err(WithinFault::Shape { at: place });
    }
    match read_inner(message, targets, at) {
        Ok(read) => Ok(read),
        Err(fault) => Err(WithinFault::Wire(fault)),
    }
}

// The place of the label or pointer of the first run that does not lie wholly in the bytes.
fn cut_in_run(bytes: &[u8], at: usize) -> Option<usize>
    requires { at ≤ length bytes.now }
    ensures { MatchOption result ((place : ℕ) → ¬ RunIsCut bytes.now at place) (RunIsCut bytes.now at) }
{
    let mut here = at;
    'labels: loop {
        match field_at(bytes, here) {
            Ok(Field::Label(size)) => {
                if here - at + size + 2 > 255 {
                    return None;
                }
                here += size + 1;
            }
            Ok(Field::Root) => return None,
            Ok(Field::Pointer(_)) => return None,
            Err(fault) => return cut_place(fault),
        }
    }
}

// The place of a label or pointer that does not lie wholly in the bytes.
fn cut_place(fault: WireFault) -> Option<usize>
    ensures { result ≡ cut_place fault }
{
    match fault {
        WireFault::Short { at } => Some(at),
        _ => None,
    }
}

// The name at that place and the place after it.
fn read_inner(message: &[u8], targets: &[u16], at: usize) -> Result<(Name, usize), WireFault>
    requires place { at ≤ length message.now }
    requires targets { AreTargets message.now targets.now }
    ensures { IsAnswer message.now at result }
{
    let mut wire = Buffer::<255>::new();
    let (mut start, mut here) = (at, at);
    let mut next = None;
    'fields: loop {
        match field_at(message, here)? {
            Field::Root => {
                wire.push(0);
                return Ok((Name::of_wire(wire.as_slice()), next.unwrap_or(here + 1)));
            }
            Field::Label(size) => {
                if wire.as_slice().len() + size + 2 > 255 {
                    return Err(WireFault::NameTooLong { at: here });
                }
                wire.push_slice(&message[here..here + size + 1]);
                here += size + 1;
            }
            Field::Pointer(offset) => {
                leads_back(offset, start, here)?;
                next = Some(next.unwrap_or(here + 2));
                start = target_of(targets, offset);
                here = start;
            }
        }
    }
}

// That a pointer to that offset leads back from the run that begins at `start` and that it ends.
fn leads_back(offset: usize, start: usize, here: usize) -> Result<(), WireFault>
    ensures back { OnOk result (offset < start) }
    ensures forward { IfErr result (λ fault. (fault ≡ WireFault.ForwardPointer here) × (start ≤ offset)) }
{
    if offset >= start {
        return Err(WireFault::ForwardPointer { at: here });
    }
    Ok(())
}
