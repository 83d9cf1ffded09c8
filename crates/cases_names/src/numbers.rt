//! Numbers, domains and their keys.

use cases_text::{name_of, text_of};
use dns_name::Name;
use enum_app::{Number, default_apex};
use enum_base::MemoryFault;
use snaptr_app::Domain;
use std::alloc::Global;

/// The answer of a case.
pub fn answer(alloc: Global, verb: &str, rest: &str) -> Result<String, MemoryFault> {
    match verb {
        "number" => match Number::parse(rest.as_bytes()) {
            Ok(number) => whole(alloc, &number),
            Err(fault) => text_of(alloc, fault.words().as_slice()),
        },
        "key" => key(alloc, rest),
        "from_key" => from_key(alloc, rest),
        _ => domain(alloc, rest),
    }
}

// The digits, the string and the domain of a number.
fn whole(alloc: Global, number: &Number) -> Result<String, MemoryFault> {
    let digits = text_of(alloc, number.digits())?;
    let string = text_of(alloc, number.aus().as_bytes())?;
    let domain = key_under(alloc, number, &default_apex())?;
    Ok(format!(in alloc; "{digits} {string} {domain}")?)
}

fn key_under(alloc: Global, number: &Number, apex: &Name) -> Result<String, MemoryFault> {
    match number.key(apex) {
        Ok(name) => text_of(alloc, name.text().as_slice()),
        Err(fault) => text_of(alloc, fault.words().as_slice()),
    }
}

fn key(alloc: Global, case: &str) -> Result<String, MemoryFault> {
    let (text, apex) = case.split_once(" under ").unwrap_or((case, "."));
    match (Number::parse(text.as_bytes()), name_of(alloc, apex)?) {
        (Ok(number), Some(apex)) => key_under(alloc, &number, &apex),
        _ => Ok("no case".to_string(alloc)?),
    }
}

// The digits of the number whose domain that is.
fn from_key(alloc: Global, case: &str) -> Result<String, MemoryFault> {
    let (name, apex) = case.split_once(" under ").unwrap_or((case, "."));
    let (Some(name), Some(apex)) = (name_of(alloc, name)?, name_of(alloc, apex)?) else {
        return Ok("no case".to_string(alloc)?);
    };
    match Number::from_key(&name, &apex) {
        Some(number) => text_of(alloc, number.digits()),
        None => Ok("none".to_string(alloc)?),
    }
}

// The string and the key of a domain, or its fault.
fn domain(alloc: Global, text: &str) -> Result<String, MemoryFault> {
    match Domain::parse(text.as_bytes()) {
        Ok(domain) => {
            let string = text_of(alloc, domain.aus().as_bytes())?;
            let key = domain.key();
            let key = text_of(alloc, key.text().as_slice())?;
            Ok(format!(in alloc; "{string} {key}")?)
        }
        Err(fault) => text_of(alloc, fault.words().as_slice()),
    }
}
