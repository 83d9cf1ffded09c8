//! The edge of a rule.
ghost use Rattle.std.specs.Prelude.{IfOk, MatchOption};
ghost use Rattle.naptr_data.specs.Zones.{Labels};
ghost use Rattle.service_field.specs.declared.kind.Kind.TheVariants as Kind;
ghost use Rattle.ddds_walk.specs.Clients.{meant};
ghost use Rattle.ddds_walk.specs.Rules.{Gives, GivesAs, GivesName, IsAdmissible};
ghost use Rattle.ddds_walk.specs.declared.edge.Edge.{Edge};

use crate::client::Client;
use crate::edge::Edge;
use crate::output::output_of;
use crate::report::Outcome;
use dns_name::Name;
use enum_base::{MemoryFault, Text255};
use naptr_data::Naptr;
use rule_check::{has_regexp, has_replacement, is_uri};
use service_field::{DddsApp, Kind};
use std::alloc::Global;
use subst_expr::laws::one_output;

// The edge that a rule gives, or `None` where the rule is not admissible (RFC 3403, section 4.1).
pub(crate) fn edge_of<P: DddsApp>(
    alloc: Global,
    client: &Client<'_, P>,
    rule: &Naptr,
) -> Result<Option<Edge>, MemoryFault>
    ensures { IfOk result (λ edge. MatchOption edge
        (¬ IsAdmissible (meant P.meaning client.now) rule.now) (Gives (meant P.meaning client.now) rule.now)) }
{
    match client.app.kind(&rule.flags) {
        Kind::Step => step_of(alloc, client, rule),
        Kind::TerminalUri => uri_of(alloc, client, rule),
        Kind::TerminalName(letter) => Ok(target_of(client, letter, rule)),
        Kind::Unknown => Ok(None),
    }
}

// What a rule gives that is not terminal.
fn step_of<P: DddsApp>(
    alloc: Global,
    client: &Client<'_, P>,
    rule: &Naptr,
) -> Result<Option<Edge>, MemoryFault>
    ensures { IfOk result (λ edge. MatchOption edge
        ((e : Edge) → ¬ GivesAs Kind.Step (meant P.meaning client.now) rule.now e)
        (GivesAs Kind.Step (meant P.meaning client.now) rule.now)) }
{
    if !(rule.services.as_bytes().is_empty() || client.app.fits(client.wanted, &rule.services)) {
        return Ok(None);
    }
    if has_replacement(rule) {
        return Ok(Some(Edge::Step(rule.replacement.fold())));
    }
    if !(client.app.regexp_step() && has_regexp(rule)) {
        return Ok(None);
    }
    match name_of(alloc, rule, client.aus)? {
        Some(name) => Ok(Some(Edge::Step(name))),
        None => Ok(None),
    }
}

// What a rule gives whose flags ask for a URI.
fn uri_of<P: DddsApp>(
    alloc: Global,
    client: &Client<'_, P>,
    rule: &Naptr,
) -> Result<Option<Edge>, MemoryFault>
    ensures { IfOk result (λ edge. MatchOption edge
        ((e : Edge) → ¬ GivesAs Kind.TerminalUri (meant P.meaning client.now) rule.now e)
        (GivesAs Kind.TerminalUri (meant P.meaning client.now) rule.now)) }
{
    if !(has_regexp(rule) && client.app.fits(client.wanted, &rule.services)) {
        return Ok(None);
    }
    one_output();
    let Some(output) = output_of(alloc, rule, client.aus)? else {
        return Ok(None);
    };
    if is_uri(output.as_slice()) {
        Ok(Some(Edge::Stop(*rule, Outcome::Uri(output))))
    } else {
        Ok(None)
    }
}

// What a rule gives whose flags ask for a domain with this letter.
fn target_of<P: DddsApp>(client: &Client<'_, P>, letter: u8, rule: &Naptr) -> Option<Edge>
    ensures { MatchOption result
        ((edge : Edge) → ¬ GivesAs (Kind.TerminalName letter) (meant P.meaning client.now) rule.now edge)
        (GivesAs (Kind.TerminalName letter) (meant P.meaning client.now) rule.now) }
{
    if has_replacement(rule) && client.app.fits(client.wanted, &rule.services) {
        Some(Edge::Stop(*rule, Outcome::Target(letter, rule.replacement)))
    } else {
        None
    }
}

// The folded domain that REGEXP gives.
fn name_of(alloc: Global, rule: &Naptr, aus: &Text255) -> Result<Option<Name>, MemoryFault>
    ensures { IfOk result (λ name. MatchOption name
        ((domain : Labels) → ¬ GivesName rule.now aus.now domain) (GivesName rule.now aus.now)) }
{
    one_output();
    let Some(output) = output_of(alloc, rule, aus)? else {
        return Ok(None);
    };
    let root = Name::root();
    match Name::from_text(output.as_slice(), Some(&root)) {
        Ok(name) => Ok(Some(name.fold())),
        Err(_) => Ok(None),
    }
}
