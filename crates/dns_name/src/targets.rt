//! Where the pointers of a message lead to.
ghost use Rattle.std.specs.Prelude.{◌≡◌, ◌<◌, ◌≤◌, length, get_or, IfOk};
ghost use Rattle.dns_name.specs.Targets.{Hops, AreTargets};

use crate::field::{Field, field_at};
use enum_base::{List, MemoryFault};
use std::alloc::Global;

/// To each of the first places of a message, the place that the pointers there lead to at last. The list may be empty.
pub(crate) type Targets = List<u16>;

/// The targets of a message, by one pass: names that are read by them follow no chain of pointers twice (RFC 1035, 4.1.4). There
/// are none, which takes no memory, where no pointer leads to another.
///
/// # Errors
/// Out of memory.
pub(crate) fn targets_of(alloc: Global, message: &[u8]) -> Result<Targets, MemoryFault>
    ensures { IfOk result (λ targets. AreTargets message.now targets) }
{
    let mut targets = Targets::new(alloc);
    if !has_chain(message) {
        return Ok(targets);
    }
    'places: for at in 0..16384 {
        if usize::from(at) >= message.len() {
            return Ok(targets);
        }
        let target = target_at(message, targets.as_slice(), at);
        targets.push(target)?;
    }
    Ok(targets)
}

// Whether a pointer leads to another before it. No clause is needed: targets are free to be none.
fn has_chain(message: &[u8]) -> bool {
    for (at, high) in message.iter().enumerate() {
        if *high >= 192 && leads_to_pointer(message, at) {
            return true;
        }
    }
    false
}

// Whether the pointer at that place leads to another before it.
fn leads_to_pointer(message: &[u8], at: usize) -> bool
    requires { at ≤ length message.now }
{
    let [high, low, ..] = &message[at..] else {
        return false;
    };
    let offset = 256 * usize::from(*high % 64) + usize::from(*low);
    offset < at && message.get(offset).is_some_and(|first| *first >= 192)
}

// The target of that place, where those of the places before it are at hand.
fn target_at(message: &[u8], targets: &[u16], at: u16) -> u16
    requires place { at ≤ length message.now }
    requires before { length targets.now ≡ at }
    requires targets { AreTargets message.now targets.now }
    ensures { Hops message.now at result }
{
    match field_at(message, usize::from(at)) {
        Ok(Field::Pointer(offset)) => {
            if offset < targets.len() {
                targets[offset]
            } else {
                at
            }
        }
        _ => at,
    }
}

/// The target of that offset, where it is known, else the offset.
pub(crate) fn target_of(targets: &[u16], offset: usize) -> usize
    ensures { result ≡ get_or targets.now offset offset }
{
    if offset < targets.len() {
        usize::from(targets[offset])
    } else {
        offset
    }
}
