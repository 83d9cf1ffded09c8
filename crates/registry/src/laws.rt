//! Laws of commands, each the contract of a function that does nothing.
ghost use Rattle.registry.specs.Laws.{CommandsHaveOneRefusal, CommandsMakeOneZone};

use rule_check::one_rule_fault;

/// A command has one first refusal at most.
pub fn one_refusal()
    ensures { CommandsHaveOneRefusal }
{
    one_rule_fault();
}

/// A command makes one zone at most of a valid zone.
pub fn one_change()
    ensures { CommandsMakeOneZone }
{}
