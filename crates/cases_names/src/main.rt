//! Runs cases of the base, of names and rules, and of services, numbers and domains, one a line, and prints each with its
//! answer. The file stdout has the answers, worked out by hand from RFC 1035, 3403, 3958, 4343, 4848 and 6116.
//!
//! Of the base (module `values`): `decimal TEXT`: read_u16 and read_u32. `letter B`: fold_byte. `same ONE OTHER`:
//! same_folded. `text TEXT`: from_bytes. `list N..`: push and pop. `front N TEXT`: truncate. `buffer TEXT`: push,
//! push_slice. `steps`: the bytes of a count of steps. `shelf`, `source`, `sink`: objects in memory (module `objects`).
//!
//! Of names (module `names`):
//!
//! - `read TEXT`, `read TEXT in ORIGIN`: the wire bytes of the name, or the fault; `size` in place of `read`: how many
//! - `write TEXT`: the text of the name, and whether it is read again as that name
//! - `compare ONE with OTHER`: whether they are the same, whether the first is at or below the second, their order
//! - `fold TEXT`, `parent TEXT`, `star TEXT`: the wire bytes of the folded name, of its parent, of `*` before it
//! - `names TEXT..`: a list of these names
//! - `at MESSAGE PLACE`, `within MESSAGE PLACE END`: the wire bytes of the name at that place of a message in
//!   hexadecimal, and the place after it, or the fault
//!
//! Of rules (module `rules`), of six fields:
//!
//! - `rdata FIELDS`, `rdata FIELDS then FIELDS`: the RDATA of one rule, or of two into one list of bytes
//! - `rank FIELDS with FIELDS`: the order of two rules, and of them turned round
//! - `rules FIELDS then FIELDS`: a list of these rules
//! - `show FIELDS`: the fields as zone text
//! - `bare RDATA`: the fields of the rule of that RDATA, and whether it is written again as it was, or the fault
//! - `in MESSAGE FROM TO`: the fields of the rule of the RDATA between those places of a message, or the fault
//!
//! Of services (modules `fields`, `application`, `numbers`, `domains`): `read_enum TEXT`: the types of the services or
//! their fault; `read_snaptr TEXT`: `services` or the fault. `want_enum TEXT`, `want_snaptr TEXT`: `list` or the fault.
//! `fits_enum LIST in TEXT`, `fits_any_enum TEXT`, and the same of `snaptr`: whether services serve. `enum`, `snaptr` or
//! `unaptr` before `kind FLAGS`, `fits LIST in TEXT`, `fits_any TEXT`, `fault TEXT`, `rules`: what the application tells.
//! `number TEXT`: its digits, its string and its domain. `key TEXT under APEX`, `from_key NAME under APEX`: keys both
//! ways. `domain TEXT`: its string and its key.
#![tactic(auto)]

mod application;
mod fields;
mod messages;
mod names;
mod numbers;
mod objects;
mod rdata;
mod rules;
mod steps;
mod values;

use cases_text::{Cases, line_of, print_cases};
use dns_name::{
    folded_order_is_total, name_at_is_one, name_within_is_one, plain_text_is_written,
    written_is_read_again,
};
use enum_base::MemoryFault;
use naptr_data::{
    offer_folds, one_offer, rank_is_total, rdata_is_read, rdata_tells_rules, rule_in_is_one,
    some_offer,
};
use service_field::{one_spelling, services_ignore_case, wanted_ignores_case};
use std::alloc::Global;
use std::io;

#[derive(Drop)]
struct Verbs;

impl Cases for Verbs {
    fn told(&mut self, alloc: Global, line: &str) -> Result<String, MemoryFault> {
        let answer = answer(alloc, line)?;
        line_of(alloc, answer.as_str())
    }
}

fn main(rt: HostRuntime) -> io::Result<()> {
    print_cases(&rt, &mut Verbs)?;
    laws();
    Ok(())
}

fn answer(alloc: Global, line: &str) -> Result<String, MemoryFault> {
    let (verb, rest) = line.split_once(' ').unwrap_or((line, ""));
    match verb {
        "decimal" | "letter" | "same" | "text" | "list" | "front" | "buffer" | "steps" => {
            values::answer(alloc, verb, rest)
        }
        "shelf" | "source" | "sink" => objects::answer(alloc, verb, rest),
        "rdata" | "rank" | "rules" | "show" => rules::answer(alloc, verb, rest),
        "bare" | "in" => rdata::answer(alloc, verb, rest),
        "at" | "within" => messages::answer(alloc, verb, rest),
        "enum" | "snaptr" | "unaptr" => application::answer(alloc, verb, rest),
        "number" | "key" | "from_key" | "domain" => numbers::answer(alloc, verb, rest),
        "read" | "size" | "write" | "compare" | "names" | "fold" | "star" | "parent" => {
            names::answer(alloc, verb, rest)
        }
        _ => fields::answer(alloc, verb, rest),
    }
}

// Each law once.
fn laws() {
    written_is_read_again();
    plain_text_is_written();
    folded_order_is_total();
    name_at_is_one();
    name_within_is_one();
    rdata_tells_rules();
    rank_is_total();
    one_offer();
    some_offer();
    offer_folds();
    rdata_is_read();
    rule_in_is_one();
    one_spelling();
    services_ignore_case();
    wanted_ignores_case();
    enum_app::services_serve_where_they_fit();
    snaptr_app::services_serve_where_they_fit();
}
