//! The rules of a set.
ghost use Rattle.std.specs.Prelude.{IfOk, OnOk};
ghost use Rattle.zone_db.specs.LookUp.{AreRulesOf};
ghost use Rattle.zone_db.specs.Offering.{IsPushed, RdataRises};

use dns_wire::{Content, Record};
use enum_base::MemoryFault;
use naptr_data::Rules;
use std::alloc::Global;

/// The rules of a set, which stand there in the order of rules.
pub(crate) fn rules_in(alloc: Global, set: &[Record]) -> Result<Rules, MemoryFault>
    requires { RdataRises set.now }
    ensures { IfOk result (AreRulesOf set.now) }
{
    let mut rules = Rules::new(alloc);
    for one in set {
        push_rule(&mut rules, &one.content)?;
    }
    Ok(rules)
}

// Appends the rule, where the content is one.
fn push_rule(rules: &mut Rules, said: &Content) -> Result<(), MemoryFault>
    ensures { OnOk result (IsPushed said.now rules.old rules.new) }
{
    match said {
        Content::Naptr(rule) => {
            // What the type keeps of a rule is known only where its fields are used.
            let (_order, _preference) = (rule.order, rule.preference);
            let (_flags, _services) = (rule.flags.as_bytes(), rule.services.as_bytes());
            let (_regexp, _replacement) = (rule.regexp.as_bytes(), rule.replacement.wire());
            rules.push(*rule)
        }
        _ => Ok(()),
    }
}
