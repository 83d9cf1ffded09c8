//! Rules as provisioning takes them (RFC 3403, section 4.1).
ghost use Rattle.std.specs.Prelude.{◌≡◌, ◌≢◌, ◌↔◌, ◌⊎◌, [], Some, Err, true, false, IsTrue, IfOk, MatchOption};
ghost use Rattle.std.specs.Result.{IfErr};
ghost use Rattle.service_field.specs.declared.kind.Kind.TheVariants as Kind;
ghost use Rattle.subst_expr.specs.Regexp.{IsWellFormed};
ghost use Rattle.rule_check.specs.Checking.{HasUriForm, IsFaultOfRegexp, IsUriFault};
ghost use Rattle.rule_check.specs.Fields.{HasFields};
ghost use Rattle.rule_check.specs.WellFormed.{HasFault, HasGoodServices, HasWhole, IsFirstFault, IsWellFormedRule};
ghost use Rattle.rule_check.specs.declared.fault.RuleFault.{RuleFault};
ghost use Rattle.rule_check.specs.declared.fault.RuleFault.TheVariants as RuleFault;

use crate::fault::RuleFault;
use crate::fields::{has_regexp, has_replacement, is_root};
use crate::laws::one_rule_fault;
use crate::scheme::{has_scheme, has_whole};
use naptr_rule::Naptr;
use service_field::{DddsApp, Kind, ServiceFault};
use std::alloc::Global;
use subst_expr::check;
use subst_expr::laws::one_reading;

/// Whether a rule is one that provisioning takes for the application: its flags are known, it has the field that they
/// ask for, its services and its REGEXP are well formed, and where it gives a URI the output begins with a literal
/// scheme.
///
/// # Errors
/// The first fault of the rule, and `Memory`.
pub fn check_rule<P: DddsApp>(alloc: Global, app: &P, rule: &Naptr) -> Result<(), RuleFault>
    ensures ok { IfOk result (λ _. IsWellFormedRule (P.meaning app.now) rule.now) }
    ensures err { IfErr result (λ fault. (fault ≡ RuleFault.Memory) ⊎ IsFirstFault (P.meaning app.now) rule.now fault) }

    // A well-formed rule is taken and any other refused with its first fault, or running out of memory is told.
    ensures accepts { IsWellFormedRule (P.meaning app.now) rule.now → IfErr result (λ fault. fault ≡ RuleFault.Memory) }
    ensures refuses { (fault : RuleFault) → IsFirstFault (P.meaning app.now) rule.now fault →
        (result ≡ Err fault) ⊎ (result ≡ Err RuleFault.Memory) }
{
    one_rule_fault();
    checked(alloc, app, rule)
}

// The same, without the conditions the other way round.
fn checked<P: DddsApp>(alloc: Global, app: &P, rule: &Naptr) -> Result<(), RuleFault>
    ensures ok { IfOk result (λ _. IsWellFormedRule (P.meaning app.now) rule.now) }
    ensures err { IfErr result (λ fault. (fault ≡ RuleFault.Memory) ⊎ IsFirstFault (P.meaning app.now) rule.now fault) }
{
    one_reading();
    if let Some(fault) = field_fault(app, rule) {
        return Err(fault);
    }
    if let Some(fault) = services_fault(app, rule) {
        return Err(RuleFault::Services(fault));
    }
    check_regexp(alloc, app, rule)?;
    match uri_fault(app, rule) {
        Some(fault) => Err(fault),
        None => Ok(()),
    }
}

// What is wrong with the flags, or with which of the two fields is there.
fn field_fault<P: DddsApp>(app: &P, rule: &Naptr) -> Option<RuleFault>
    ensures { MatchOption result (HasFields ((P.meaning app.now).kind rule.now.flags) (P.meaning app.now).steps_by_regexp rule.now)
        (IsFirstFault (P.meaning app.now) rule.now) }
{
    if has_fields(app, rule) {
        return None;
    }
    Some(
        match (
            is_unknown(app, rule),
            rule.regexp.as_bytes().is_empty(),
            is_root(rule.replacement),
        ) {
            (true, _, _) => RuleFault::UnknownFlags,
            (false, false, false) => RuleFault::BothFields,
            (false, true, true) => RuleFault::NoField,
            _ => RuleFault::WrongField,
        },
    )
}

// Whether the rule has the field that its flags ask for.
fn has_fields<P: DddsApp>(app: &P, rule: &Naptr) -> bool
    ensures { IsTrue result ↔ HasFields ((P.meaning app.now).kind rule.now.flags) (P.meaning app.now).steps_by_regexp rule.now }
{
    match app.kind(&rule.flags) {
        Kind::Step => has_replacement(rule) || (app.regexp_step() && has_regexp(rule)),
        Kind::TerminalUri => has_regexp(rule),
        Kind::TerminalName(_) => has_replacement(rule),
        Kind::Unknown => false,
    }
}

// Whether the application does not know the flags.
fn is_unknown<P: DddsApp>(app: &P, rule: &Naptr) -> bool
    ensures { IsTrue result ↔ ((P.meaning app.now).kind rule.now.flags ≡ Kind.Unknown) }
{
    matches!(app.kind(&rule.flags), Kind::Unknown)
}

// The fault of the services. Those of a rule that is not terminal may be empty.
fn services_fault<P: DddsApp>(app: &P, rule: &Naptr) -> Option<ServiceFault>
    ensures { MatchOption result (HasGoodServices (P.meaning app.now) rule.now)
        (λ fault. HasFault (P.meaning app.now) rule.now (RuleFault.Services fault)) }
{
    if is_step(app, rule) && rule.services.as_bytes().is_empty() {
        return None;
    }
    app.services_fault(&rule.services)
}

// Whether the rule is not terminal.
fn is_step<P: DddsApp>(app: &P, rule: &Naptr) -> bool
    ensures { IsTrue result ↔ ((P.meaning app.now).kind rule.now.flags ≡ Kind.Step) }
{
    matches!(app.kind(&rule.flags), Kind::Step)
}

// Refuses a REGEXP that is there and not well formed.
fn check_regexp<P: DddsApp>(alloc: Global, app: &P, rule: &Naptr) -> Result<(), RuleFault>
    ensures ok { IfOk result (λ _. (rule.now.regexp ≡ []) ⊎ IsWellFormed rule.now.regexp) }
    ensures err { IfErr result (IsFaultOfRegexp (P.meaning app.now) rule.now) }
{
    if rule.regexp.as_bytes().is_empty() {
        return Ok(());
    }
    match check(alloc, &rule.regexp) {
        Ok(()) => Ok(()),
        Err(fault) => Err(RuleFault::from(fault)),
    }
}

// What is wrong with the REGEXP of a rule that gives a URI.
fn uri_fault<P: DddsApp>(app: &P, rule: &Naptr) -> Option<RuleFault>
    ensures { MatchOption result (HasUriForm (P.meaning app.now) rule.now) (IsUriFault (P.meaning app.now) rule.now) }
{
    if !gives_uri(app, rule) {
        return None;
    }
    if !has_scheme(&rule.regexp) {
        return Some(RuleFault::NoScheme);
    }
    if !takes_form(app, rule) {
        return Some(RuleFault::UriForm);
    }
    None
}

// Whether the application takes the expression of a URI rule: where it takes the whole string alone, only one of these.
fn takes_form<P: DddsApp>(app: &P, rule: &Naptr) -> bool
    ensures taken { IsTrue result → (P.meaning app.now).wants_whole ≡ true → HasWhole rule.now.regexp }
    ensures refused { result ≡ false → ((P.meaning app.now).wants_whole ≡ true) × ¬ HasWhole rule.now.regexp }
{
    !app.strict_uri() || has_whole(&rule.regexp)
}

// Whether the rule gives a URI.
fn gives_uri<P: DddsApp>(app: &P, rule: &Naptr) -> bool
    ensures { IsTrue result ↔ ((P.meaning app.now).kind rule.now.flags ≡ Kind.TerminalUri) }
{
    matches!(app.kind(&rule.flags), Kind::TerminalUri)
}
