//! Replies as messages.
ghost use Rattle.std.specs.Prelude.{◌≡◌, ◌≤◌, ◌<◌, ◌++◌, ◌∷◌, [], IfOk, OnOk, OnErr, IsTrue, option_map};
ghost use Rattle.dns_wire.specs.Counts.{are_counted};
ghost use Rattle.zone_db.specs.Replies.{IsMessageOf, options_for, questions_of, reply_options, without_glue, without_records};
ghost use Rattle.responder.specs.Answering.{Posts, Sends};

use crate::bits::reply_header;
use crate::cut::{Cut, cut_to};
use dns_name::Name;
use dns_wire::kinds::OPT;
use dns_wire::{Content, Header, Message, Question, Questions, Record, Records, encode};
use enum_base::{Bytes, MemoryFault};
use std::alloc::Global;
use zone_db::Draft;

/// Appends the reply that says this, as much of it as that many bytes hold.
///
/// # Errors
/// Out of memory; then nothing is appended.
pub(crate) fn send(
    alloc: Global,
    limit: usize,
    query: &Header,
    options: Option<&Record>,
    draft: Draft,
    out: &mut Bytes,
) -> Result<(), MemoryFault>
    requires { limit ≤ 65_535 }
    ensures ok { OnOk result (Sends limit query.now (option_map (λ r. r.now) options.entry) draft out.old out.new) }
    ensures err { OnErr result (out.new ≡ out.old) }
{
    match cut_to(limit, options, &draft) {
        Cut::Whole => post(alloc, query, options, false, draft, out),
        Cut::NoGlue => post(
            alloc,
            query,
            options,
            false,
            without_glue(alloc, draft),
            out,
        ),
        Cut::Short => post(
            alloc,
            query,
            options,
            true,
            without_records(alloc, draft),
            out,
        ),
    }
}

fn without_glue(alloc: Global, draft: Draft) -> Draft
    ensures { result ≡ without_glue draft }
{
    Draft {
        glue: Records::new(alloc),
        ..draft
    }
}

fn without_records(alloc: Global, draft: Draft) -> Draft
    ensures { result ≡ without_records draft }
{
    Draft {
        authoritative: draft.authoritative,
        code: draft.code,
        question: draft.question,
        answers: Records::new(alloc),
        authority: Records::new(alloc),
        glue: Records::new(alloc),
    }
}

// Appends what is said, all of it.
fn post(
    alloc: Global,
    query: &Header,
    options: Option<&Record>,
    short: bool,
    draft: Draft,
    out: &mut Bytes,
) -> Result<(), MemoryFault>
    requires { IsTrue (are_counted (questions_of draft.question) draft.answers draft.authority
        (draft.glue ++ options_for (option_map (λ r. r.now) options) draft.code)) }
    ensures ok { OnOk result (Posts query.now (option_map (λ r. r.now) options.entry) short draft out.old out.new) }
    ensures err { OnErr result (out.new ≡ out.old) }
{
    let message = message_of(alloc, query, options, short, draft)?;
    match encode(&message, out) {
        Ok(()) => Ok(()),
        Err(_) => Err(MemoryFault),
    }
}

// The message of what is said.
fn message_of(
    alloc: Global,
    query: &Header,
    options: Option<&Record>,
    short: bool,
    draft: Draft,
) -> Result<Message, MemoryFault>
    requires { IsTrue (are_counted (questions_of draft.question) draft.answers draft.authority
        (draft.glue ++ options_for (option_map (λ r. r.now) options) draft.code)) }
    ensures { IfOk result (IsMessageOf query.now (option_map (λ r. r.now) options.entry) short draft) }
{
    let header = reply_header(query, draft.authoritative, short, draft.code);
    let questions = questions_of(alloc, draft.question)?;
    let additional = with_options(alloc, options, draft.code, draft.glue)?;
    Ok(Message {
        header,
        questions,
        answers: draft.answers,
        authority: draft.authority,
        additional,
    })
}

fn questions_of(alloc: Global, question: Option<Question>) -> Result<Questions, MemoryFault>
    ensures { IfOk result (λ questions. questions ≡ questions_of question) }
{
    let mut questions = Questions::new(alloc);
    if let Some(question) = question {
        questions.push(question)?;
    }
    Ok(questions)
}

// Glue, and after it the options of a reply where the query has some.
fn with_options(
    alloc: Global,
    options: Option<&Record>,
    code: u8,
    glue: Records,
) -> Result<Records, MemoryFault>
    ensures { IfOk result (λ all. all ≡ glue ++ options_for (option_map (λ r. r.now) options.entry) code) }
{
    match options {
        Some(_) => push_options(alloc, code, glue),
        None => Ok(glue),
    }
}

fn push_options(alloc: Global, code: u8, glue: Records) -> Result<Records, MemoryFault>
    ensures { IfOk result (λ all. all ≡ glue ++ reply_options code ∷ []) }
{
    let mut all = glue;
    all.push(reply_options(alloc, code))?;
    Ok(all)
}

// The options of a reply. Takes no memory.
fn reply_options(alloc: Global, code: u8) -> Record
    ensures { result ≡ reply_options code }
{
    Record {
        owner: Name::root(),
        kind: OPT,
        class: 4096,
        ttl: u32::from(code / 16) * 16_777_216,
        content: Content::Opt(Bytes::new(alloc)),
    }
}
