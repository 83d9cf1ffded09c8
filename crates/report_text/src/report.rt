//! How a report is printed.
ghost use Rattle.std.specs.Prelude.{◌≡◌, ◌++◌, OnOk, IfOk, decimal, flat_map, codes};
ghost use Rattle.report_text.specs.Printing.{dotted, path_text, word_of, rule_text, given_text, end_line, last_domain};
ghost use Rattle.report_text.specs.Printing.{loop_line, edge_line, edge_lines, last_line, printed};

use ddds_walk::{End, LoopPath, Outcome, Report};
use dns_name::Name;
use enum_base::{Bytes, MemoryFault, push_number};
use naptr_data::Naptr;
use std::alloc::Global;

/// The printed report of a walk from `keys` keys: a line for each end, or a loop with its edges, and last the number of
/// ends. A path is the ranks, with the place of the key in front where there are several keys.
///
/// # Errors
/// `MemoryFault` where memory is out.
pub fn print_report(alloc: Global, report: &Report, keys: usize) -> Result<Bytes, MemoryFault>
    ensures { IfOk result (λ text. text ≡ printed keys report.now) }
{
    let mut text = Bytes::new(alloc);
    match report {
        Report::Ends(ends) => push_report(ends.as_slice(), keys, &mut text)?,
        Report::Loop(path) => push_loop(path, keys, &mut text)?,
    }
    Ok(text)
}

fn push_report(ends: &[End], keys: usize, out: &mut Bytes) -> Result<(), MemoryFault>
    ensures { OnOk result (out.new ≡ out.old ++ printed keys (Report.Ends ends.now)) }
{
    push_ends(ends, keys, out)?;
    push_last(ends.len(), out)
}

fn push_loop(path: &LoopPath, keys: usize, out: &mut Bytes) -> Result<(), MemoryFault>
    ensures { OnOk result (out.new ≡ out.old ++ printed keys (Report.Loop path.now)) }
{
    push_loop_line(path, keys, out)?;
    push_edges(path.ranks.as_slice(), path.domains.as_slice(), out)?;
    push_last(0, out)
}

fn push_ends(ends: &[End], keys: usize, out: &mut Bytes) -> Result<(), MemoryFault>
    ensures { OnOk result (out.new ≡ out.old ++ flat_map (end_line keys) ends.now) }
{
    for end in ends {
        push_end(end, keys, out)?;
    }
    Ok(())
}

fn push_end(end: &End, keys: usize, out: &mut Bytes) -> Result<(), MemoryFault>
    ensures { OnOk result (out.new ≡ out.old ++ end_line keys end.now) }
{
    out.push_slice(word_of(&end.outcome))?;
    out.push_slice(b" ")?;
    push_path(keys, end.place, end.ranks.as_slice(), out)?;
    out.push_slice(b" ")?;
    end.domain.to_text(out)?;
    push_rule(&end.rule, out)?;
    push_given(&end.outcome, out)?;
    out.push_slice(b"\n")
}

// The word that an end's line begins with.
fn word_of(outcome: &Outcome) -> &'static [u8]
    ensures { result.now ≡ word_of outcome.now }
{
    match outcome {
        Outcome::Uri(_) => b"uri",
        Outcome::Target(letter, _) => { if *letter == b's' { b"srv" } else { b"addr" } }
        Outcome::Unserved => b"open",
    }
}

fn push_rule(rule: &Option<Naptr>, out: &mut Bytes) -> Result<(), MemoryFault>
    ensures { OnOk result (out.new ≡ out.old ++ rule_text rule.now) }
{
    let Some(rule) = rule else {
        return Ok(());
    };
    push_number(b" ", usize::from(rule.order), out)?;
    push_number(b" ", usize::from(rule.preference), out)?;
    out.push_slice(b" ")?;
    out.push_slice(rule.services.as_bytes())
}

fn push_given(outcome: &Outcome, out: &mut Bytes) -> Result<(), MemoryFault>
    ensures { OnOk result (out.new ≡ out.old ++ given_text outcome.now) }
{
    match outcome {
        Outcome::Uri(bytes) => {
            out.push_slice(b" ")?;
            out.push_slice(bytes.as_slice())
        }
        Outcome::Target(_, name) => {
            out.push_slice(b" ")?;
            name.fold().to_text(out)
        }
        Outcome::Unserved => Ok(()),
    }
}

// The path of a derivation from one of so many keys.
fn push_path(keys: usize, place: u8, ranks: &[u32], out: &mut Bytes) -> Result<(), MemoryFault>
    ensures { OnOk result (out.new ≡ out.old ++ path_text keys place ranks.now) }
{
    if keys > 1 {
        push_number(b"", usize::from(place), out)?;
        push_ranks(ranks, out)
    } else {
        push_dotted(ranks, out)
    }
}

// The ranks with dots between; a hyphen where there is none.
fn push_dotted(ranks: &[u32], out: &mut Bytes) -> Result<(), MemoryFault>
    ensures { OnOk result (out.new ≡ out.old ++ dotted ranks.now) }
{
    let [first, rest @ ..] = ranks else {
        return out.push_slice(b"-");
    };
    push_number(b"", *first as usize, out)?;
    push_ranks(rest, out)
}

// Each rank after a dot.
fn push_ranks(ranks: &[u32], out: &mut Bytes) -> Result<(), MemoryFault>
    ensures { OnOk result (out.new ≡ out.old ++ flat_map (λ rank. codes "." ++ decimal rank) ranks.now) }
{
    for rank in ranks {
        push_number(b".", *rank as usize, out)?;
    }
    Ok(())
}

fn push_loop_line(path: &LoopPath, keys: usize, out: &mut Bytes) -> Result<(), MemoryFault>
    ensures { OnOk result (out.new ≡ out.old ++ loop_line keys path.now) }
{
    out.push_slice(b"loop ")?;
    push_path(keys, path.place, path.ranks.as_slice(), out)?;
    out.push_slice(b" ")?;
    last_domain(path.domains.as_slice()).to_text(out)?;
    out.push_slice(b"\n")
}

// The last domain; the root where there is none.
fn last_domain(domains: &[Name]) -> Name
    ensures { result ≡ last_domain domains.now }
{
    match domains.last() {
        Some(domain) => *domain,
        None => Name::root(),
    }
}

fn push_edges(ranks: &[u32], domains: &[Name], out: &mut Bytes) -> Result<(), MemoryFault>
    ensures { OnOk result (out.new ≡ out.old ++ edge_lines ranks.now domains.now) }
{
    let mut left = domains;
    for rank in ranks {
        let [from, rest @ ..] = left else {
            return Ok(());
        };
        let [to, ..] = rest else {
            return Ok(());
        };
        push_edge(*rank, from, to, out)?;
        left = rest;
    }
    Ok(())
}

fn push_edge(rank: u32, from: &Name, to: &Name, out: &mut Bytes) -> Result<(), MemoryFault>
    ensures { OnOk result (out.new ≡ out.old ++ edge_line rank from.now to.now) }
{
    push_number(b"edge ", rank as usize, out)?;
    out.push_slice(b" ")?;
    from.to_text(out)?;
    out.push_slice(b" ")?;
    to.to_text(out)?;
    out.push_slice(b"\n")
}

fn push_last(count: usize, out: &mut Bytes) -> Result<(), MemoryFault>
    ensures { OnOk result (out.new ≡ out.old ++ last_line count) }
{
    push_number(b"end ", count, out)?;
    out.push_slice(b"\n")
}
