//! Cases of expressions.
ghost use Rattle.std.specs.Prelude.{◌<◌, length};

use cases_text::bytes_of;
use enum_base::MemoryFault;
use posix_ere::{Ere, EreFault, Node};
use std::alloc::Global;

/// The answer of a case.
pub fn answer(alloc: Global, verb: &str, rest: &str) -> Result<String, MemoryFault> {
    let by = if verb == "part" { " at " } else { " in " };
    let (text, more) = rest.split_once(by).unwrap_or((rest, ""));
    let text = bytes_of(alloc, if verb == "ere" { rest } else { text })?;
    if text.as_slice().len() > 255 {
        return Ok("too long".to_string(alloc)?);
    }
    let ere = match Ere::read(alloc, text.as_slice()) {
        Ok(ere) => ere,
        Err(fault) => return fault_words(alloc, fault),
    };
    match verb {
        "ere" => Ok(format!(in alloc; "weight {} groups {}", ere.weight(), ere.groups())?),
        "part" => part(alloc, &ere, more),
        _ => Ok(listed(&ere, bytes_of(alloc, more)?.as_slice()).to_string(alloc)?),
    }
}

/// The place and the reason of a fault, or its weight.
pub fn fault_words(alloc: Global, fault: EreFault) -> Result<String, MemoryFault> {
    match fault {
        EreFault::Broken { at, why } => Ok(format!(in alloc; "{why:?} {at}")?),
        EreFault::TooHeavy { weight } => Ok(format!(in alloc; "TooHeavy {weight}")?),
        EreFault::Memory => Err(MemoryFault),
    }
}

// The number of the node that a path leads to, or of the root.
fn walked(ere: &Ere<Global>, path: &str) -> u32
    ensures { result < length ere.now }
{
    let mut at = ere.root();
    for step in path.as_bytes() {
        let k = u32::from(step.saturating_sub(b'0'));
        if k < ere.children(at) {
            at = ere.child(at, k);
        }
    }
    at
}

// What stands where a path leads.
fn part(alloc: Global, ere: &Ere<Global>, path: &str) -> Result<String, MemoryFault> {
    let at = walked(ere, path);
    let children = ere.children(at);
    let node = node_words(alloc, ere.node(at))?;
    Ok(format!(in alloc; "{node} over {children}")?)
}

fn node_words(alloc: Global, node: Node) -> Result<String, MemoryFault> {
    let word = match node {
        Node::Alt => "Alt",
        Node::Branch => "Branch",
        Node::Any => "Any",
        Node::Start => "Start",
        Node::End => "End",
        Node::Set(true) => "Set negated",
        Node::Set(false) => "Set",
        Node::Byte(byte) => return Ok(format!(in alloc; "Byte {byte}")?),
        Node::Group(number) => return Ok(format!(in alloc; "Group {number}")?),
        Node::Rep(low, None) => return Ok(format!(in alloc; "Rep {low} or more")?),
        Node::Rep(low, Some(high)) => return Ok(format!(in alloc; "Rep {low} to {high}")?),
    };
    Ok(word.to_string(alloc)?)
}

// Whether the bracket that is the whole text lists the byte.
fn listed(ere: &Ere<Global>, byte: &[u8]) -> &'static str {
    let at = walked(ere, "00");
    match (ere.node(at), byte) {
        (Node::Set(_), [byte]) => { if ere.lists(at, *byte) { "yes" } else { "no" } }
        _ => "no bracket",
    }
}
