//! How much of what is said goes out.
ghost use Rattle.std.specs.Prelude.{◌≡◌, ◌≤◌, ℕ, length, option_map};
ghost use Rattle.std.specs.List.{flat_map};
ghost use Rattle.dns_wire.specs.Encoding.{question_wire};
ghost use Rattle.zone_db.specs.Replies.{limit_of, options_for, questions_of};
ghost use Rattle.responder.specs.Drafting.{IsCutTo};
ghost use Rattle.responder.specs.Sizes.{IsLeft, base_size, size};

use crate::size::after_records;
use dns_wire::limits::MOST_BYTES;
use dns_wire::{Question, Record};
use zone_db::{Draft, Way};

// A datagram without options, and one with any, in bytes (RFC 1035, 4.2.1).
const LEAST: u16 = 512;

const MOST: u16 = 4096;

/// How much of what is said goes out: all of it, all but the glue, or no record.
#[derive(Clone, Copy)]
pub enum Cut {
    Whole,
    NoGlue,
    Short,
}

/// How long a reply may be.
pub(crate) fn limit_of(way: Way, options: Option<&Record>) -> usize
    ensures limit { result ≡ limit_of way (option_map (λ r. r.now) options.entry) }
    ensures most { result ≤ 65_535 }
{
    match (way, options) {
        (Way::Stream, _) => MOST_BYTES,
        (Way::Datagram, None) => usize::from(LEAST),
        (Way::Datagram, Some(options)) => usize::from(options.class.min(MOST).max(LEAST)),
    }
}

/// How much of what is said goes out, where the reply may have that many bytes.
pub(crate) fn cut_to(limit: usize, options: Option<&Record>, draft: &Draft) -> Cut
    ensures { IsCutTo limit (option_map (λ r. r.now) options.entry) draft.now result }
{
    match after_base(limit, options, draft) {
        None => Cut::Short,
        Some(room) => match after_records(draft.glue.as_slice(), room) {
            Some(_) => Cut::Whole,
            None => Cut::NoGlue,
        },
    }
}

// What all but the glue leaves of that many bytes.
fn after_base(limit: usize, options: Option<&Record>, draft: &Draft) -> Option<usize>
    ensures { IsLeft limit (base_size (option_map (λ r. r.now) options.entry) draft.now) result }
{
    let room = limit.checked_sub(12 + question_size(&draft.question) + options_size(options))?;
    let room = after_records(draft.answers.as_slice(), room)?;
    after_records(draft.authority.as_slice(), room)
}

fn question_size(question: &Option<Question>) -> usize
    ensures size { result ≡ length (flat_map question_wire (questions_of question.now)) }
    ensures most { result ≤ 259 }
{
    match question {
        Some(question) => question.name.wire().len() + 4,
        None => 0,
    }
}

fn options_size(options: Option<&Record>) -> usize
    ensures size { (code : ℕ) → result ≡ size (options_for (option_map (λ r. r.now) options.entry) code) }
    ensures most { result ≤ 11 }
{
    match options {
        Some(_) => 11,
        None => 0,
    }
}
