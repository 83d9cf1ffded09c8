//! What is said to a query.
ghost use Rattle.std.specs.Prelude.{◌≡◌, ◌≤◌, Some, IfOk};
ghost use Rattle.zone_db.specs.LookUp.{shown};
ghost use Rattle.zone_db.specs.Replies.{Comes, Finds, bare, draft_with, is_authoritative, plan_of};
ghost use Rattle.responder.specs.Drafting.{IsSmall, added_size, plan_as};

use crate::added::added_for;
use crate::plan::{Plan, REFUSED, plan_of};
use dns_name::Names;
use dns_wire::{Message, Question, Records};
use enum_base::MemoryFault;
use std::alloc::Global;
use zone_db::{Added, Draft, Found, ZoneSet};

// How many aliases are followed in one reply.
const MOST_ALIASES: u8 = 8;

/// What is said to a query that is a message.
pub(crate) fn said_to(alloc: Global, zones: &ZoneSet, query: &Message) -> Result<Draft, MemoryFault>
    ensures comes { IfOk result (Comes zones.now (plan_of query.now)) }
    ensures small { IfOk result IsSmall }
{
    said_by(alloc, zones, &plan_of(query))
}

fn said_by(alloc: Global, zones: &ZoneSet, plan: &Plan) -> Result<Draft, MemoryFault>
    ensures comes { IfOk result (Comes zones.now (plan_as plan.now)) }
    ensures small { IfOk result IsSmall }
{
    match plan {
        Plan::Says(code) => Ok(bare(alloc, *code, None)),
        Plan::Refuses(code, question) => Ok(refused(alloc, *code, question)),
        Plan::LooksUp(question) => found_for(alloc, zones, question),
    }
}

/// A code, and no more than the question. Takes no memory.
pub(crate) fn bare(alloc: Global, code: u8, question: Option<Question>) -> Draft
    ensures { result ≡ bare code question }
{
    Draft {
        authoritative: false,
        code,
        question,
        answers: Records::new(alloc),
        authority: Records::new(alloc),
        glue: Records::new(alloc),
    }
}

// What is said to a question that is looked up.
fn found_for(alloc: Global, zones: &ZoneSet, question: &Question) -> Result<Draft, MemoryFault>
    ensures finds { IfOk result (Finds zones.now question.now) }
    ensures small { IfOk result IsSmall }
{
    let found = zones.lookup(&question.name, question.kind);
    let authoritative = is_authoritative(&found);
    let mut seen = Names::new(alloc);
    seen.push(question.name.fold())?;
    let added = added_for(
        alloc,
        zones,
        question,
        MOST_ALIASES,
        &mut seen,
        REFUSED,
        found,
    )?;
    Ok(draft_with(question, authoritative, added))
}

// Whether what is found is told with authority.
fn is_authoritative(found: &Found<'_>) -> bool
    ensures { result ≡ is_authoritative (shown found.now) }
{
    match found {
        Found::Outside | Found::Cut(_) => false,
        Found::Alias(_) | Found::Set(_) | Found::NoSet(_) | Found::NoName(_) => true,
    }
}

// What is said to a question by what was added for its name.
fn draft_with(question: &Question, authoritative: bool, added: Added) -> Draft
    ensures draft { result ≡ draft_with question.now authoritative added }
    ensures small { added_size added ≤ 64_680 → IsSmall result }
{
    let _wire = question.name.wire();
    Draft {
        authoritative,
        code: added.code,
        question: Some(*question),
        answers: added.answers,
        authority: added.authority,
        glue: added.glue,
    }
}

// A code and the question.
fn refused(alloc: Global, code: u8, question: &Question) -> Draft
    ensures draft { result ≡ bare code (Some question.now) }
    ensures small { IsSmall result }
{
    let _wire = question.name.wire();
    bare(alloc, code, Some(*question))
}
