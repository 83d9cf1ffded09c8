//! Services and wanted lists.

use crate::application::truth;
use cases_text::text_of;
use enum_base::MemoryFault;
use service_field::{
    EnumServices, ServiceFault, Wanted, fits_enum, fits_snaptr, read_enum, read_snaptr, want_enum,
    want_snaptr,
};
use std::alloc::Global;

/// The answer of a case.
pub fn answer(alloc: Global, verb: &str, rest: &str) -> Result<String, MemoryFault> {
    let (list, text) = rest.split_once(" in ").unwrap_or(("", rest));
    match verb {
        "read_enum" => match read_enum(rest.as_bytes()) {
            Ok(services) => types(alloc, rest.len(), &services),
            Err(fault) => text_of(alloc, fault.words().as_slice()),
        },
        "read_snaptr" => match read_snaptr(rest.as_bytes()) {
            Ok(_) => Ok("services".to_string(alloc)?),
            Err(fault) => text_of(alloc, fault.words().as_slice()),
        },
        "want_enum" => wanted(alloc, want_enum(rest.as_bytes())),
        "want_snaptr" => wanted(alloc, want_snaptr(rest.as_bytes())),
        "fits_enum" => enum_fits(alloc, Wanted::List(list.as_bytes()), text),
        "fits_any_enum" => enum_fits(alloc, Wanted::Any, rest),
        "fits_snaptr" => snaptr_fits(alloc, Wanted::List(list.as_bytes()), text),
        "fits_any_snaptr" => snaptr_fits(alloc, Wanted::Any, rest),
        _ => Ok("no case".to_string(alloc)?),
    }
}

fn types(alloc: Global, most: usize, services: &EnumServices<'_>) -> Result<String, MemoryFault> {
    let mut told = "types".to_string(alloc)?;
    for k in 0..most {
        let Some(tag) = services.type_at(k) else {
            break;
        };
        told.push(' ')?;
        told.push_str(text_of(alloc, tag)?.as_str())?;
    }
    Ok(told)
}

fn wanted(alloc: Global, answer: Result<Wanted<'_>, ServiceFault>) -> Result<String, MemoryFault> {
    match answer {
        Ok(Wanted::Any) => Ok("any".to_string(alloc)?),
        Ok(Wanted::List(_)) => Ok("list".to_string(alloc)?),
        Err(fault) => text_of(alloc, fault.words().as_slice()),
    }
}

fn enum_fits(alloc: Global, wanted: Wanted<'_>, text: &str) -> Result<String, MemoryFault> {
    match read_enum(text.as_bytes()) {
        Ok(services) => truth(alloc, fits_enum(wanted, services)),
        Err(fault) => text_of(alloc, fault.words().as_slice()),
    }
}

fn snaptr_fits(alloc: Global, wanted: Wanted<'_>, text: &str) -> Result<String, MemoryFault> {
    match read_snaptr(text.as_bytes()) {
        Ok(services) => truth(alloc, fits_snaptr(wanted, services)),
        Err(fault) => text_of(alloc, fault.words().as_slice()),
    }
}
