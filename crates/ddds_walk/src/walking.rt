//! The walk.
ghost use Rattle.std.specs.Prelude.{◌≡◌, ◌≤◌, ◌<◌, ◌+◌, ℕ, Err, IfOk, OnOk, IsTrue, length, map};
ghost use Rattle.enum_base.specs.Causes.{Rose};
ghost use Rattle.enum_base.specs.Outside.{WhereTold};
ghost use Rattle.dns_name.specs.Name.{folded_labels};
ghost use Rattle.naptr_data.specs.Zones.{rules_and_aliases};
ghost use Rattle.service_field.specs.Wanted.{wanted_text};
ghost use Rattle.ddds_walk.specs.Clients.{meant};
ghost use Rattle.ddds_walk.specs.Rules.{client_of};
ghost use Rattle.ddds_walk.specs.Graph.{graph_of};
ghost use Rattle.ddds_walk.specs.Report.{Answers};
ghost use Rattle.ddds_walk.specs.Asking.{IsWhole, AsksNeeded, AsksAll, AsksAtMost, AsksFew, NeedsMore, IsLimit, more};
ghost use Rattle.ddds_walk.specs.Asking.{FetchesEnough, FetchesMissing};
ghost use Rattle.ddds_walk.specs.Turns.{HasWalked};
ghost use Rattle.ddds_walk.specs.declared.fault.WalkFault.TheVariants.{Limit, Trouble};

use crate::client::Client;
use crate::fault::WalkFault;
use crate::laws::needed_bound;
use crate::report::Report;
use crate::walker::{Turn, Walker};
use dns_name::Name;
use enum_base::Text255;
use naptr_data::{RuleSource, one_offer};
use service_field::{DddsApp, Wanted};
use std::alloc::Global;
use subst_expr::laws::one_output;

/// Follows the admissible rules from 1 to 8 keys on: every end once, with its least derivation and in rising order, or
/// the least loop where there is one. A derivation is less by the place of its key first. Each domain is asked for
/// once, at most `limit` of them (RFC 3402, section 3).
///
/// # Errors
/// `Limit` where `limit` domains were asked and a further one is needed, `Trouble` of the source, and `Memory`.
pub fn walk<P: DddsApp, S: RuleSource>(
    alloc: Global,
    app: &P,
    wanted: Wanted<'_>,
    aus: &Text255,
    keys: &[Name],
    source: &mut S,
    limit: u32,
) -> Result<Report, WalkFault>
    requires limit { 1 ≤ limit }
    requires some { 1 ≤ length keys.now }
    requires few { length keys.now ≤ 8 }
    // The answer is the report, or the least loop.
    ensures answer { WhereTold (S.state source.old).zones (λ zones.
        IfOk result (Answers (client_of (P.meaning app.now) (wanted_text wanted.entry) aus.now) zones
        (map folded_labels keys.now))) }

    // Whatever it answers, only needed domains are asked for, each once; and each of them where it has an answer.
    ensures needed { WhereTold (S.state source.old).zones (λ zones.
        AsksNeeded (graph_of (client_of (P.meaning app.now) (wanted_text wanted.entry) aus.now) zones)
        (map folded_labels keys.now) (S.state source.old).asks (S.state source.new).asks) }
    ensures all { WhereTold (S.state source.old).zones (λ zones. OnOk result
        (AsksAll (graph_of (client_of (P.meaning app.now) (wanted_text wanted.entry) aus.now) zones)
        (map folded_labels keys.now) (S.state source.old).asks (S.state source.new).asks)) }
    ensures bound { WhereTold (S.state source.old).zones (λ zones. OnOk result
        (AsksFew (rules_and_aliases zones) (map folded_labels keys.now)
        (S.state source.old).asks (S.state source.new).asks)) }
    ensures most { AsksAtMost limit (S.state source.old).asks (S.state source.new).asks }

    // The limit, and trouble.
    ensures limit { (asked : ℕ) → result ≡ Err (Limit asked) →
        (asked ≡ limit) × ((S.state source.new).asks ≡ more limit (S.state source.old).asks) }
    ensures past { WhereTold (S.state source.old).zones (λ zones. (asked : ℕ) → result ≡ Err (Limit asked) →
        NeedsMore (graph_of (client_of (P.meaning app.now) (wanted_text wanted.entry) aus.now) zones)
        (map folded_labels keys.now) limit) }
    ensures stops { WhereTold (S.state source.old).zones (λ zones.
        NeedsMore (graph_of (client_of (P.meaning app.now) (wanted_text wanted.entry) aus.now) zones)
        (map folded_labels keys.now) limit →
        ¬ Rose (S.state source.old).troubles (S.state source.new).troubles → IsLimit limit result) }
    ensures trouble { result ≡ Err Trouble →
        Rose (S.state source.old).troubles (S.state source.new).troubles × IsTrue (S.state source.new).failed }
    ensures later { (S.state source.old).troubles ≤ (S.state source.new).troubles }

    // What the source keeps and fetches.
    ensures fetched { IsWhole result →
        FetchesEnough (S.state source.old).kept (S.state source.old).asks (S.state source.new).asks
        (S.state source.old).fetched (S.state source.new).fetched }
    ensures missing { WhereTold (S.state source.old).zones (λ zones. OnOk result
        (FetchesMissing (graph_of (client_of (P.meaning app.now) (wanted_text wanted.entry) aus.now) zones)
        (map folded_labels keys.now) (S.state source.old).room (S.state source.old).kept (S.state source.new).kept
        (S.state source.old).fetched (S.state source.new).fetched)) }

    // What stays.
    ensures zones { (S.state source.new).zones ≡ (S.state source.old).zones }
    ensures room { (S.state source.new).room ≡ (S.state source.old).room }
    ensures lent { (S.state source.new).lent ≡ (S.state source.old).lent }
{
    needed_bound();
    walk_inner(alloc, &Client { app, wanted, aus }, keys, source, limit)
}

// The same, with one clause on the whole walk.
fn walk_inner<P: DddsApp, S: RuleSource>(
    alloc: Global,
    client: &Client<'_, P>,
    keys: &[Name],
    source: &mut S,
    limit: u32,
) -> Result<Report, WalkFault>
    requires few { length keys.now ≤ 8 }
    ensures walked { HasWalked (meant P.meaning client.now) (map folded_labels keys.now) limit (S.state source.old)
        (S.state source.new) result }
{
    one_offer();
    one_output();
    let mut walker = Walker::start(alloc, keys)?;
    loop {
        match walker.turn(alloc, client, source, limit)? {
            Turn::On => {}
            Turn::Done => return Ok(Report::Ends(walker.ends)),
            Turn::Back(path) => return Ok(Report::Loop(path)),
        }
    }
}
