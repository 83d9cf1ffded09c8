//! Which of its two fields a rule has (RFC 3403, section 4.1).
ghost use Rattle.std.specs.Prelude.{◌≡◌, ◌↔◌, [], IsTrue};
ghost use Rattle.rule_check.specs.Fields.{HasRegexp, HasReplacement};

use dns_name::Name;
use naptr_rule::Naptr;

/// Whether REGEXP alone is there.
pub fn has_regexp(rule: &Naptr) -> bool
    ensures { IsTrue result ↔ HasRegexp rule.now }
{
    !rule.regexp.as_bytes().is_empty() && is_root(rule.replacement)
}

/// Whether REPLACEMENT alone is there.
pub fn has_replacement(rule: &Naptr) -> bool
    ensures { IsTrue result ↔ HasReplacement rule.now }
{
    rule.regexp.as_bytes().is_empty() && !is_root(rule.replacement)
}

/// Whether the name is the root.
pub(crate) fn is_root(name: Name) -> bool
    ensures { IsTrue result ↔ (name ≡ []) }
{
    name == Name::root()
}
