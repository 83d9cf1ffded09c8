//! The edges of a domain.
ghost use Rattle.std.specs.Prelude.{◌≡◌, ◌<◌, ◌≤◌, ◌↔◌, ℕ, [], ◌∷◌, Some, IsTrue, false, IfOk, MatchOption, length, slice_get};
ghost use Rattle.dns_name.specs.Name.{folded_labels};
ghost use Rattle.naptr_data.specs.Zones.{IsRising};
ghost use Rattle.naptr_data.specs.Sources.{HasFewRules};
ghost use Rattle.naptr_data.specs.declared.offer.Offer.TheVariants as Offer;
ghost use Rattle.ddds_walk.specs.Clients.{meant};
ghost use Rattle.ddds_walk.specs.Rules.{IsEdgeOf};
ghost use Rattle.ddds_walk.specs.declared.edge.Edge.{Edge};
ghost use Rattle.ddds_walk.specs.declared.edge.Edge.TheVariants as Edge;

use crate::client::Client;
use crate::edge::{Edge, Edges};
use crate::rule_edge::edge_of;
use dns_name::Name;
use enum_base::MemoryFault;
use naptr_data::{Naptr, Offer};
use service_field::DddsApp;
use std::alloc::Global;
use subst_expr::laws::one_output;

// The edges out of a domain with this offer, in their order: those of the admissible rules of the least ORDER among
// these, or that of an alias (RFC 3402, section 3; RFC 3403, section 4.1).
pub(crate) fn edges_of<P: DddsApp>(
    alloc: Global,
    client: &Client<'_, P>,
    offer: &Offer,
) -> Result<Edges, MemoryFault>
    requires few { HasFewRules offer.now }
    ensures edges { IfOk result (λ edges. (rank : ℕ) (edge : Edge) → (slice_get edges rank ≡ Some edge)
        ↔ IsEdgeOf (meant P.meaning client.now) offer.now rank edge) }
    ensures few { IfOk result (λ edges. length edges ≤ 65_535) }
{
    match offer {
        Offer::Rules(rules) => edges_of_rules(alloc, client, rules.as_slice()),
        Offer::Alias(target) => edges_of_alias(alloc, target),
        Offer::Unserved => Ok(Edges::new(alloc)),
    }
}

// The edge of an alias.
fn edges_of_alias(alloc: Global, target: &Name) -> Result<Edges, MemoryFault>
    ensures { IfOk result (λ edges. edges ≡ Edge.Step (folded_labels target.now) ∷ []) }
{
    let mut edges = Edges::new(alloc);
    edges.push(Edge::Step(target.fold()))?;
    Ok(edges)
}

// The edges of rules that rise. The first admissible one has the least ORDER.
fn edges_of_rules<P: DddsApp>(
    alloc: Global,
    client: &Client<'_, P>,
    rules: &[Naptr],
) -> Result<Edges, MemoryFault>
    requires rising { IsRising rules.now }
    ensures edges { IfOk result (λ edges. (rank : ℕ) (edge : Edge) → (slice_get edges rank ≡ Some edge)
        ↔ IsEdgeOf (meant P.meaning client.now) (Offer.Rules rules.now) rank edge) }
    ensures few { IfOk result (λ edges. length edges ≤ length rules.now) }
{
    one_output();
    let mut edges = Edges::new(alloc);
    let mut least = None;
    for rule in rules {
        if is_past(least, rule.order) {
            return Ok(edges);
        }
        if let Some(edge) = edge_of(alloc, client, rule)? {
            edges.push(edge)?;
            least = Some(rule.order);
        }
    }
    Ok(edges)
}

// Whether the ORDER is greater than that of an admissible rule.
fn is_past(least: Option<u16>, order: u16) -> bool
    ensures { MatchOption least (result ≡ false) (λ least. IsTrue result ↔ (least < order)) }
{
    match least {
        Some(least) => least < order,
        None => false,
    }
}
