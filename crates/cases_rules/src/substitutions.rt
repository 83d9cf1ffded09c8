//! Cases of substitutions.
ghost use Rattle.std.specs.Prelude.{◌≡◌, ◌≤◌, ◌<◌, length};

use crate::expressions;
use cases_text::{bytes_of, text_of};
use enum_base::{Bytes, MemoryFault, Steps, Text255};
use std::alloc::Global;
use std::marker::Brand;
use std::sync::ledger::{Blank, Ledger};
use subst_expr::{Applied, ApplyFault, RegexpFault, Subst, SubstFault, apply, check};

/// The answer of a case.
pub fn answer(alloc: Global, verb: &str, rest: &str) -> Result<String, MemoryFault> {
    let (text, aus) = rest.split_once(" on ").unwrap_or((rest, ""));
    let text = bytes_of(alloc, text)?;
    let Some(text) = Text255::from_bytes(text.as_slice()) else {
        return Ok("more than 255 bytes".to_string(alloc)?);
    };
    match verb {
        "split" => split(alloc, &text),
        "check" => match check(alloc, &text) {
            Ok(()) => Ok("well-formed".to_string(alloc)?),
            Err(fault) => regexp_words(alloc, fault),
        },
        _ => applied(alloc, &text, bytes_of(alloc, aus)?.as_slice()),
    }
}

fn split(alloc: Global, text: &Text255) -> Result<String, MemoryFault> {
    match Subst::split(text) {
        Ok(subst) => parts(alloc, &subst),
        Err(fault) => subst_words(alloc, fault),
    }
}

fn parts(alloc: Global, subst: &Subst) -> Result<String, MemoryFault> {
    let ere = text_of(alloc, subst.ere.as_bytes())?;
    let repl = text_of(alloc, subst.repl.as_bytes())?;
    let (at, delim, fold) = (subst.repl_at, subst.delim, subst.fold);
    Ok(format!(in alloc; "ere {ere} repl {repl} at {at} delimiter {delim} fold {fold}")?)
}

fn subst_words(alloc: Global, fault: SubstFault) -> Result<String, MemoryFault> {
    match fault {
        SubstFault::Empty => Ok("Empty".to_string(alloc)?),
        SubstFault::NotPrintable { at } => Ok(format!(in alloc; "NotPrintable {at}")?),
        SubstFault::BadDelimiter => Ok("BadDelimiter".to_string(alloc)?),
        SubstFault::MissingDelimiter { found } => {
            Ok(format!(in alloc; "MissingDelimiter {found}")?)
        }
        SubstFault::BadFlag { at } => Ok(format!(in alloc; "BadFlag {at}")?),
        SubstFault::BadEscape { at } => Ok(format!(in alloc; "BadEscape {at}")?),
    }
}

pub fn regexp_words(alloc: Global, fault: RegexpFault) -> Result<String, MemoryFault> {
    match fault {
        RegexpFault::Split(fault) => subst_words(alloc, fault),
        RegexpFault::Ere(fault) => expressions::fault_words(alloc, fault),
        RegexpFault::NoGroup { at } => Ok(format!(in alloc; "NoGroup {at}")?),
        RegexpFault::Memory => Err(MemoryFault),
    }
}

// What the rule appends to `>`.
fn applied(alloc: Global, text: &Text255, aus: &[u8]) -> Result<String, MemoryFault> {
    let aus = &aus[..aus.len().min(255)];
    let mut out = Bytes::new(alloc);
    out.push_slice(b">")?;
    let told = match counted::<Brand>(alloc, text, aus, &mut out, Blank::new(1)) {
        Ok(Applied::Output) => "Output".to_string(alloc)?,
        Ok(Applied::NoMatch) => "NoMatch".to_string(alloc)?,
        Err(ApplyFault::TooLong) => "TooLong".to_string(alloc)?,
        Err(ApplyFault::IllFormed(fault)) => regexp_words(alloc, fault)?,
        Err(ApplyFault::Memory) => return Err(MemoryFault),
    };
    let length = out.as_slice().len();
    if length > 100 {
        return Ok(format!(in alloc; "{told} {length} bytes")?);
    }
    let held = text_of(alloc, out.as_slice())?;
    Ok(format!(in alloc; "{told} {held}")?)
}

fn counted<L: Ledger>(
    alloc: Global,
    text: &Text255,
    aus: &[u8],
    out: &mut Bytes,
    blank: Blank,
) -> Result<Applied, ApplyFault>
    requires name { blank.name ≡ L.name }
    requires parts { blank.parts ≡ L.parts }
    requires some { 0 < L.parts }
    requires short { length aus.now ≤ 255 }
{
    let mut steps = Steps::<L>::start(blank);
    apply(alloc, text, aus, out, &mut steps)
}
