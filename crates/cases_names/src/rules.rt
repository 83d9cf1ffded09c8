//! Cases of rules.

use crate::names::order_word;
use cases_text::{field_of, hex_of, name_of, text_of};
use enum_base::{Bytes, MemoryFault, Text255, read_u16};
use naptr_data::{Naptr, Rules};
use std::alloc::Global;

/// The answer of a case.
pub fn answer(alloc: Global, verb: &str, rest: &str) -> Result<String, MemoryFault> {
    match verb {
        "rdata" => rdata(alloc, rest),
        "rank" => rank(alloc, rest),
        "show" => match rule(alloc, rest) {
            Some(rule) => shown(alloc, &rule),
            None => Ok("no rule".to_string(alloc)?),
        },
        _ => list(alloc, rest),
    }
}

// The rule of six fields.
fn rule(alloc: Global, text: &str) -> Option<Naptr> {
    let mut fields = text.split(' ');
    Some(Naptr {
        order: read_u16(fields.next()?.as_bytes()).ok()?,
        preference: read_u16(fields.next()?.as_bytes()).ok()?,
        flags: string(alloc, fields.next()?)?,
        services: string(alloc, fields.next()?)?,
        regexp: string(alloc, fields.next()?)?,
        replacement: name_of(alloc, fields.next()?).ok()??,
    })
}

fn string(alloc: Global, field: &str) -> Option<Text255> {
    Text255::from_bytes(field_of(alloc, field).ok()?.as_slice())
}

fn listed(alloc: Global, rest: &str) -> Result<Rules, MemoryFault> {
    let mut rules = Rules::new(alloc);
    for text in rest.split(" then ") {
        if let Some(rule) = rule(alloc, text) {
            rules.push(rule)?;
        }
    }
    Ok(rules)
}

fn rdata(alloc: Global, rest: &str) -> Result<String, MemoryFault> {
    let rules = listed(alloc, rest)?;
    let mut out = Bytes::new(alloc);
    for rule in rules.as_slice() {
        rule.write(&mut out)?;
    }
    hex_of(alloc, out.as_slice())
}

fn rank(alloc: Global, rest: &str) -> Result<String, MemoryFault> {
    let (one, other) = rest.split_once(" with ").unwrap_or((rest, ""));
    let (Some(one), Some(other)) = (rule(alloc, one), rule(alloc, other)) else {
        return Ok("no rule".to_string(alloc)?);
    };
    let order = order_word(one.cmp_rank(&other));
    let turned = order_word(other.cmp_rank(&one));
    Ok(format!(in alloc; "{order} {turned}")?)
}

/// The fields of a rule as zone text.
pub fn shown(alloc: Global, rule: &Naptr) -> Result<String, MemoryFault> {
    let mut out = Bytes::new(alloc);
    rule.to_text(&mut out)?;
    text_of(alloc, out.as_slice())
}

fn list(alloc: Global, rest: &str) -> Result<String, MemoryFault> {
    let rules = listed(alloc, rest)?;
    let mut told = String::new(alloc);
    for rule in rules.as_slice() {
        let before = if told.is_empty() { "" } else { ", " };
        let replacement = hex_of(alloc, rule.replacement.wire())?;
        let one = format!(in alloc; "{before}order {} replacement {replacement}", rule.order)?;
        told.push_str(one.as_str())?;
    }
    Ok(told)
}
