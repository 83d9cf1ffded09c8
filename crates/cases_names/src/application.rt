//! What an application tells, through its bound.

use cases_text::text_of;
use enum_app::EnumApp;
use enum_base::{MemoryFault, Text255};
use service_field::{DddsApp, Kind, Wanted};
use snaptr_app::{SnaptrApp, UnaptrApp};
use std::alloc::Global;

/// The answer of a case.
pub fn answer(alloc: Global, verb: &str, rest: &str) -> Result<String, MemoryFault> {
    match verb {
        "enum" => told(alloc, &EnumApp, rest),
        "snaptr" => told(alloc, &SnaptrApp, rest),
        _ => told(alloc, &UnaptrApp::default(), rest),
    }
}

fn told<A: DddsApp>(alloc: Global, app: &A, case: &str) -> Result<String, MemoryFault> {
    let (verb, rest) = case.split_once(' ').unwrap_or((case, ""));
    let (list, field) = rest.split_once(" in ").unwrap_or(("", rest));
    let Some(field) = Text255::from_bytes(field.as_bytes()) else {
        return Ok("too long".to_string(alloc)?);
    };
    match verb {
        "kind" => kind(alloc, app.kind(&field)),
        "fits" => truth(alloc, app.fits(Wanted::List(list.as_bytes()), &field)),
        "fits_any" => truth(alloc, app.fits(Wanted::Any, &field)),
        "fault" => match app.services_fault(&field) {
            Some(fault) => text_of(alloc, fault.words().as_slice()),
            None => Ok("none".to_string(alloc)?),
        },
        _ => {
            let (step, strict) = (app.regexp_step(), app.strict_uri());
            Ok(format!(in alloc; "regexp_step {step} strict_uri {strict}")?)
        }
    }
}

fn kind(alloc: Global, kind: Kind) -> Result<String, MemoryFault> {
    match kind {
        Kind::Step => Ok("Step".to_string(alloc)?),
        Kind::TerminalUri => Ok("TerminalUri".to_string(alloc)?),
        Kind::TerminalName(letter) => Ok(format!(in alloc; "TerminalName {letter}")?),
        Kind::Unknown => Ok("Unknown".to_string(alloc)?),
    }
}

/// `true` or `false`.
pub fn truth(alloc: Global, holds: bool) -> Result<String, MemoryFault> {
    Ok(format!(in alloc; "{holds}")?)
}
