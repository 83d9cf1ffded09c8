//! What a source answers, as words.

use cases_text::text_of;
use dns_name::Name;
use enum_base::MemoryFault;
use naptr_data::{Naptr, Offer, Rules, SourceFault};
use std::alloc::Global;
use wire_source::Trouble;

/// Appends what is offered; or the fault, and the trouble that is told.
pub fn push_answer(
    alloc: Global,
    answer: &Result<Offer, SourceFault>,
    trouble: Option<Trouble>,
    told: &mut String,
) -> Result<(), MemoryFault> {
    match answer {
        Ok(Offer::Unserved) => told.push_str("unserved")?,
        Ok(Offer::Alias(target)) => push_name(alloc, "alias ", target, told)?,
        Ok(Offer::Rules(rules)) => push_rules(alloc, rules, told)?,
        Err(SourceFault::Memory) => told.push_str("memory")?,
        Err(SourceFault::Trouble) => told.push_str("trouble")?,
    }
    if let Some(trouble) = trouble {
        push_trouble(alloc, trouble, told)?;
    }
    Ok(())
}

fn push_name(alloc: Global, word: &str, name: &Name, told: &mut String) -> Result<(), MemoryFault> {
    told.push_str(word)?;
    told.push_str(text_of(alloc, name.text().as_slice())?.as_str())?;
    Ok(())
}

fn push_rules(alloc: Global, rules: &Rules, told: &mut String) -> Result<(), MemoryFault> {
    let count = rules.as_slice().len();
    told.push_str(format!(in alloc; "rules {count}")?.as_str())?;
    for rule in rules.as_slice() {
        push_rule(alloc, rule, told)?;
    }
    Ok(())
}

// Its ORDER, PREFERENCE and services.
fn push_rule(alloc: Global, rule: &Naptr, told: &mut String) -> Result<(), MemoryFault> {
    let (order, preference) = (rule.order, rule.preference);
    told.push_str(format!(in alloc; " ({order} {preference} ")?.as_str())?;
    told.push_str(text_of(alloc, rule.services.as_bytes())?.as_str())?;
    told.push_str(")")?;
    Ok(())
}

fn push_trouble(alloc: Global, trouble: Trouble, told: &mut String) -> Result<(), MemoryFault> {
    if let Trouble::BadReply(_) = trouble {
        told.push_str(" BadReply")?;
    }
    told.push_str(" ")?;
    told.push_str(text_of(alloc, trouble.words().as_slice())?.as_str())?;
    Ok(())
}

/// Whether both are the same offer.
pub fn same_answer(one: &Result<Offer, SourceFault>, other: &Result<Offer, SourceFault>) -> bool {
    match (one, other) {
        (Ok(one), Ok(other)) => is_same(one, other),
        _ => false,
    }
}

fn is_same(one: &Offer, other: &Offer) -> bool {
    match (one, other) {
        (Offer::Unserved, Offer::Unserved) => true,
        (Offer::Alias(one), Offer::Alias(other)) => one == other,
        (Offer::Rules(one), Offer::Rules(other)) => one.as_slice() == other.as_slice(),
        _ => false,
    }
}
