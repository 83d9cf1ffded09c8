//! Laws of well-formed rules, each the contract of a function that does nothing.
ghost use Rattle.rule_check.specs.WellFormed.{OneRuleFault, WellFormedHasNoRuleFault, WellFormedOrFault};

use subst_expr::laws::{one_fault, one_reading, one_split, output_or_none, split_has_pieces};

/// A rule has one first fault at most, and a well-formed one has none.
pub fn one_rule_fault()
    ensures one { OneRuleFault }
    ensures none { WellFormedHasNoRuleFault }
{
    one_fault();
    one_reading();
}

/// Each rule is well formed or has a first fault.
pub fn rule_or_fault()
    ensures { WellFormedOrFault }
{
    one_split();
    split_has_pieces();
    output_or_none();
    one_reading();
}
