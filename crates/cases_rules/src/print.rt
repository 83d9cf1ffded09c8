//! What is printed of a walk.

use crate::kept::Kept;
use crate::listed::Listed;
use ddds_walk::{End, Outcome, Report, WalkFault};
use dns_name::Name;
use enum_base::{Bytes, MemoryFault};
use itoa::Buffer;

// The domains that were asked, in order, and what the source counts and keeps.
pub fn print_source(source: &Listed, out: &mut Bytes) -> Result<(), MemoryFault> {
    push(out, "\nasked")?;
    push_names(source.asked.as_slice(), out)?;
    push(out, "\nkept")?;
    match source.cache.names() {
        Kept::Nothing => {}
        Kept::One(first) => push_names(&[first], out)?,
        Kept::Two(first, second) => push_names(&[first, second], out)?,
    }
    push(out, "\ncounts asks ")?;
    push_number(source.asks, out)?;
    push(out, " troubles ")?;
    push_number(source.troubles, out)?;
    push(out, " fetched ")?;
    push_number(source.cache.fetched(), out)
}

// With several keys the place of the key stands in front of a derivation.
pub fn print_answer(
    answer: &Result<Report, WalkFault>,
    several: bool,
    out: &mut Bytes,
) -> Result<(), MemoryFault> {
    match answer {
        Ok(Report::Ends(ends)) => {
            for end in ends.as_slice() {
                print_end(end, several, out)?;
            }
            push(out, "\nend ")?;
            push_number(ends.as_slice().len() as u64, out)
        }
        Ok(Report::Loop(path)) => {
            push(out, "\nloop ")?;
            push_path(path.place, path.ranks.as_slice(), several, out)?;
            push_names(path.domains.as_slice(), out)
        }
        Err(WalkFault::Limit { asked }) => {
            push(out, "\nLimit ")?;
            push_number(u64::from(*asked), out)
        }
        Err(WalkFault::Trouble) => push(out, "\nTrouble"),
        Err(WalkFault::Memory) => Err(MemoryFault),
    }
}

// The derivation of an end, its domain, the ORDER and PREFERENCE of its rule, and its outcome.
fn print_end(end: &End, several: bool, out: &mut Bytes) -> Result<(), MemoryFault> {
    push(out, "\n")?;
    push_path(end.place, end.ranks.as_slice(), several, out)?;
    push_names(&[end.domain], out)?;
    if let Some(rule) = &end.rule {
        push(out, " ")?;
        push_number(u64::from(rule.order), out)?;
        push(out, " ")?;
        push_number(u64::from(rule.preference), out)?;
    }
    print_outcome(&end.outcome, out)
}

fn print_outcome(outcome: &Outcome, out: &mut Bytes) -> Result<(), MemoryFault> {
    match outcome {
        Outcome::Uri(uri) => {
            push(out, " uri ")?;
            push_uri(uri.as_slice(), out)
        }
        Outcome::Target(letter, name) => {
            push(out, " target ")?;
            out.push_slice(&[*letter])?;
            push_names(&[*name], out)
        }
        Outcome::Unserved => push(out, " open"),
    }
}

// A URI, or how many bytes it has where these are more than 255.
fn push_uri(uri: &[u8], out: &mut Bytes) -> Result<(), MemoryFault> {
    if uri.len() <= 255 {
        return out.push_slice(uri);
    }
    push(out, "of ")?;
    push_number(uri.len() as u64, out)
}

// The place where there are several, and the ranks, with dots between them; `-` where there is nothing.
fn push_path(place: u8, ranks: &[u32], several: bool, out: &mut Bytes) -> Result<(), MemoryFault> {
    if several {
        push_number(u64::from(place), out)?;
        return push_further(ranks, out);
    }
    let Some((first, rest)) = ranks.split_first() else {
        return push(out, "-");
    };
    push_number(u64::from(*first), out)?;
    push_further(rest, out)
}

// Each rank after a dot.
fn push_further(ranks: &[u32], out: &mut Bytes) -> Result<(), MemoryFault> {
    for rank in ranks {
        push(out, ".")?;
        push_number(u64::from(*rank), out)?;
    }
    Ok(())
}

fn push_names(names: &[Name], out: &mut Bytes) -> Result<(), MemoryFault> {
    for name in names {
        push(out, " ")?;
        name.to_text(out)?;
    }
    Ok(())
}

fn push(out: &mut Bytes, text: &str) -> Result<(), MemoryFault> {
    out.push_slice(text.as_bytes())
}

fn push_number(number: u64, out: &mut Bytes) -> Result<(), MemoryFault> {
    out.push_slice(Buffer::new().format(number).as_bytes())
}
