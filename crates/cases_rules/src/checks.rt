//! Cases of the check of a rule.

use crate::script::rule_of;
use crate::substitutions::regexp_words;
use cases_text::text_of;
use ddds_walk::{RuleFault, check_rule};
use enum_app::EnumApp;
use enum_base::MemoryFault;
use snaptr_app::{SnaptrApp, UnaptrApp};
use std::alloc::Global;

/// Whether provisioning takes the rule for the application, or its first fault.
pub fn answer(alloc: Global, rest: &str) -> Result<String, MemoryFault> {
    let (app, fields) = rest.split_once(' ').unwrap_or((rest, ""));
    let rule = rule_of(alloc, fields)?;
    let checked = match app {
        "enum" => check_rule(alloc, &EnumApp, &rule),
        "snaptr" => check_rule(alloc, &SnaptrApp, &rule),
        _ => check_rule(alloc, &UnaptrApp::default(), &rule),
    };
    match checked {
        Ok(()) => Ok("well-formed".to_string(alloc)?),
        Err(fault) => fault_words(alloc, fault),
    }
}

fn fault_words(alloc: Global, fault: RuleFault) -> Result<String, MemoryFault> {
    let name = match fault {
        RuleFault::UnknownFlags => "UnknownFlags",
        RuleFault::BothFields => "BothFields",
        RuleFault::NoField => "NoField",
        RuleFault::WrongField => "WrongField",
        RuleFault::Services(fault) => {
            let words = text_of(alloc, fault.words().as_slice())?;
            return Ok(format!(in alloc; "Services {words}")?);
        }
        RuleFault::Regexp(fault) => {
            let words = regexp_words(alloc, fault)?;
            return Ok(format!(in alloc; "Regexp {words}")?);
        }
        RuleFault::NoScheme => "NoScheme",
        RuleFault::UriForm => "UriForm",
        RuleFault::Memory => return Err(MemoryFault),
    };
    Ok(name.to_string(alloc)?)
}
