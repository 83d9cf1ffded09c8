//! What is done with a query.
ghost use Rattle.std.specs.Prelude.{◌≡◌, length, filter, option_map};
ghost use Rattle.std.specs.List.{list_all};
ghost use Rattle.zone_db.specs.Replies.{are_options, is_at_root, is_refused, options_heard, options_of, plan_of};
ghost use Rattle.zone_db.specs.Replies.{plan_of_one, plan_of_questions, strays, version_of};
ghost use Rattle.responder.specs.Drafting.{plan_as};

use crate::bits::opcode_of;
use dns_wire::kinds::{INTERNET, OPT};
use dns_wire::{Message, Question, Record};

// Codes of replies (RFC 1035, 4.1.1; RFC 6891, 9).
pub(crate) const FORMERR: u8 = 1;

pub(crate) const NXDOMAIN: u8 = 3;

pub(crate) const NOTIMP: u8 = 4;

pub(crate) const REFUSED: u8 = 5;

pub(crate) const BADVERS: u8 = 16;

/// What is done with a query: a code is said at once, alone or with the question, or the question is looked up.
#[derive(Clone, Copy)]
pub enum Plan {
    Says(u8),
    Refuses(u8, Question),
    LooksUp(Question),
}

/// What is done with the query. The first that holds decides: options stray; the opcode is another; there is not one
/// question.
pub(crate) fn plan_of(query: &Message) -> Plan
    ensures { plan_as result ≡ plan_of query.now }
{
    if strays(query) {
        return Plan::Says(FORMERR);
    }
    if opcode_of(query.header.bits) != 0 {
        return Plan::Says(NOTIMP);
    }
    plan_of_questions(options_of(query), query.questions.as_slice())
}

fn plan_of_questions(options: Option<&Record>, questions: &[Question]) -> Plan
    ensures { plan_as result ≡ plan_of_questions (option_map (λ r. r.now) options.entry) questions.now }
{
    match questions {
        [question] => plan_of_one(options, question),
        _ => Plan::Says(FORMERR),
    }
}

fn plan_of_one(options: Option<&Record>, question: &Question) -> Plan
    ensures { plan_as result ≡ plan_of_one (option_map (λ r. r.now) options.entry) question.now }
{
    if version_of(options) != 0 {
        return Plan::Refuses(BADVERS, *question);
    }
    if is_refused(question) {
        return Plan::Refuses(REFUSED, *question);
    }
    Plan::LooksUp(*question)
}

fn is_refused(question: &Question) -> bool
    ensures { result ≡ is_refused question.now }
{
    question.class != INTERNET
        || question.kind == OPT
        || (249 <= question.kind && question.kind <= 254)
}

fn version_of(options: Option<&Record>) -> u32
    ensures { result ≡ version_of (option_map (λ r. r.now) options.entry) }
{
    match options {
        Some(record) => record.ttl / 65_536 % 256,
        None => 0,
    }
}

/// The options of the query, but where they stray.
pub(crate) fn options_heard(query: &Message) -> Option<&Record>
    ensures { option_map (λ r. r.now) result ≡ options_heard query.now }
{
    if strays(query) {
        None
    } else {
        options_of(query)
    }
}

fn options_of(query: &Message) -> Option<&Record>
    ensures { option_map (λ r. r.now) result ≡ options_of query.now }
{
    query
        .additional
        .as_slice()
        .iter()
        .find(|one| are_options(one))
}

// Whether options stand where they should not.
fn strays(query: &Message) -> bool
    ensures { result ≡ strays query.now }
{
    count_options(query.answers.as_slice()) != 0
        || count_options(query.authority.as_slice()) != 0
        || count_options(query.additional.as_slice()) > 1
        || !are_at_root(query.additional.as_slice())
}

fn count_options(records: &[Record]) -> usize
    ensures { result ≡ length (filter are_options records.now) }
{
    records.iter().filter(|one| are_options(one)).count()
}

fn are_at_root(records: &[Record]) -> bool
    ensures { result ≡ list_all is_at_root (filter are_options records.now) }
{
    records
        .iter()
        .filter(|one| are_options(one))
        .all(|one| is_at_root(one))
}

fn is_at_root(one: &Record) -> bool
    ensures { result ≡ is_at_root one.now }
{
    one.owner.wire().len() == 1
}

fn are_options(one: &Record) -> bool
    ensures { result ≡ are_options one.now }
{
    one.kind == OPT
}
