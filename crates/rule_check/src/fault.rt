//! Why provisioning refuses a rule.
ghost use Rattle.std.specs.Prelude.{◌≡◌};
ghost use Rattle.rule_check.specs.Checking.{of_regexp};

use service_field::ServiceFault;
use subst_expr::RegexpFault;

/// Why a rule is not well formed: the first that holds, in this order (RFC 3403, section 4.1).
#[derive(Clone, Copy, Debug, PartialEq, Eq, Drop)]
pub enum RuleFault {
    /// The application does not know its flags.
    UnknownFlags,
    /// It has both a REGEXP and a REPLACEMENT.
    BothFields,
    /// It has neither.
    NoField,
    /// It has not the one of the two that its flags ask for.
    WrongField,
    /// Its services are not well formed. Those of a rule that is not terminal may be empty.
    Services(ServiceFault),
    /// Its REGEXP is not well formed. The fault is never `RegexpFault::Memory`.
    Regexp(RegexpFault),
    /// It gives a URI, and its replacement does not begin with a scheme and a colon as literal text.
    NoScheme,
    /// It gives a URI, the application takes the whole string alone, and its expression is neither `.*` nor `^.*$`
    /// (RFC 4848, section 2.2).
    UriForm,
    /// Out of memory.
    Memory,
}

impl From<RegexpFault> for RuleFault {
    ghost from_gives = { λ e f. f ≡ of_regexp e };

    fn from(fault: RegexpFault) -> RuleFault {
        match fault {
            RegexpFault::Memory => RuleFault::Memory,
            fault => RuleFault::Regexp(fault),
        }
    }
}
