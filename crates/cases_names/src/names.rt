//! Cases of names.

use cases_text::{bytes_of, hex_of, name_of, text_of};
use dns_name::{Name, NameFault, Names};
use enum_base::{Bytes, MemoryFault};
use std::alloc::Global;
use std::cmp::Ordering;

/// The answer of a case.
pub fn answer(alloc: Global, verb: &str, rest: &str) -> Result<String, MemoryFault> {
    match verb {
        "read" => {
            let name = read(alloc, rest)?;
            told(alloc, name)
        }
        "size" => match read(alloc, rest)? {
            Ok(name) => Ok(format!(in alloc; "{}", name.wire().len())?),
            Err(fault) => text_of(alloc, fault.words().as_slice()),
        },
        "compare" => compare(alloc, rest),
        "names" => list(alloc, rest),
        _ => match name_of(alloc, rest)? {
            Some(name) => derived(alloc, verb, &name),
            None => Ok("no name".to_string(alloc)?),
        },
    }
}

// The name of `TEXT` or `TEXT in ORIGIN`.
fn read(alloc: Global, rest: &str) -> Result<Result<Name, NameFault>, MemoryFault> {
    let (text, origin) = match rest.split_once(" in ") {
        Some((text, origin)) => (text, name_of(alloc, origin)?),
        None => (rest, None),
    };
    let text = bytes_of(alloc, text)?;
    Ok(Name::from_text(text.as_slice(), origin.as_ref()))
}

// The wire bytes, or the fault.
fn told(alloc: Global, name: Result<Name, NameFault>) -> Result<String, MemoryFault> {
    match name {
        Ok(name) => hex_of(alloc, name.wire()),
        Err(fault) => text_of(alloc, fault.words().as_slice()),
    }
}

fn compare(alloc: Global, rest: &str) -> Result<String, MemoryFault> {
    let (one, other) = rest.split_once(" with ").unwrap_or((rest, ""));
    let (Some(one), Some(other)) = (name_of(alloc, one)?, name_of(alloc, other)?) else {
        return Ok("no name".to_string(alloc)?);
    };
    let order = order_word(one.cmp_folded(&other));
    Ok(format!(in alloc; "{} {} {order}", one.same(&other), one.is_below(&other))?)
}

/// The word of an order.
pub fn order_word(order: Ordering) -> &'static str {
    match order {
        Ordering::Less => "Less",
        Ordering::Equal => "Equal",
        Ordering::Greater => "Greater",
    }
}

// What is made of a name.
fn derived(alloc: Global, verb: &str, name: &Name) -> Result<String, MemoryFault> {
    match verb {
        "write" => write(alloc, name),
        "fold" => hex_of(alloc, name.fold().wire()),
        "star" => told(alloc, name.prepend_star()),
        _ => match name.parent() {
            Some(parent) => hex_of(alloc, parent.wire()),
            None => Ok("none".to_string(alloc)?),
        },
    }
}

fn write(alloc: Global, name: &Name) -> Result<String, MemoryFault> {
    let mut out = Bytes::new(alloc);
    name.to_text(&mut out)?;
    let again = Name::from_text(out.as_slice(), None) == Ok(*name);
    let text = text_of(alloc, out.as_slice())?;
    Ok(format!(in alloc; "{text} {again}")?)
}

fn list(alloc: Global, rest: &str) -> Result<String, MemoryFault> {
    let mut names = Names::new(alloc);
    for text in rest.split(' ') {
        if let Some(name) = name_of(alloc, text)? {
            names.push(name)?;
        }
    }
    let mut told = String::new(alloc);
    for name in names.as_slice() {
        if !told.is_empty() {
            told.push(' ')?;
        }
        told.push_str(hex_of(alloc, name.wire())?.as_str())?;
    }
    Ok(told)
}
