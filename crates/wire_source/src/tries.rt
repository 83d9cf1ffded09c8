//! Tries of a question: three of a way, and two ways.
ghost use Rattle.std.specs.Prelude.{◌≡◌, ◌↔◌, ◌≤◌, Ok, IsTrue};
ghost use Rattle.enum_base.specs.Causes.{many_more};
ghost use Rattle.zone_db.specs.Links.{TellsSet};
ghost use Rattle.wire_source.specs.Tries.{Asks, ComesTo, Ends, answer_of, end_of, trouble_of, troubles_with};
ghost use Rattle.wire_source.specs.declared.reading.Reading.TheVariants as reading;
ghost use Rattle.wire_source.specs.declared.trouble.Trouble.{Trouble as Troubles};

use crate::query::query_for;
use crate::reading::{Reading, read_reply};
use crate::trouble::Trouble;
use dns_name::Name;
use enum_base::{Failed, MemoryFault};
use naptr_data::{Offer, SourceFault};
use std::alloc::Global;
use zone_db::{Link, Way};

/// Why there is no offer.
#[derive(Clone, Copy)]
pub enum NoOffer {
    Memory,
    /// Three tries of one way failed; what was wrong with the last.
    Failed(Trouble),
}

/// Asks for the rules at the name, by datagram, and on a stream where the reply was cut short. The queries have numbers
/// from `id` on, which is the next one afterwards. The first exchange comes before any memory is taken.
pub(crate) fn ask<L: Link>(
    alloc: Global,
    link: &mut L,
    id: &mut u16,
    name: &Name,
) -> Result<Offer, NoOffer>
    requires { TellsSet (L.state link.old) }
    ensures asked { Asks 6 2 name.now id.old id.new (L.state link.old) (L.state link.new)
        (λ last. Ends last name.now (L.state link.old) (L.state link.new) result) }
    ensures datagram { (L.state link.new).way ≡ Way.Stream → many_more (L.state link.old).exchanges 2 ≤ (L.state link.new).exchanges }
{
    let read = ask_by(alloc, link, Way::Datagram, id, name);
    if !is_cut_short(&read) {
        return end_of(read);
    }
    end_of(ask_by(alloc, link, Way::Stream, id, name))
}

fn is_cut_short(read: &Result<Reading, MemoryFault>) -> bool
    ensures { IsTrue result ↔ (read.now ≡ Ok reading.CutShort) }
{
    matches!(read, Ok(Reading::CutShort))
}

// What the tries of the last way came to, as the end of all of them.
fn end_of(read: Result<Reading, MemoryFault>) -> Result<Offer, NoOffer>
    ensures { result ≡ end_of read }
{
    match read {
        Ok(Reading::Says(offer)) => Ok(offer),
        Ok(Reading::CutShort) => Err(NoOffer::Failed(Trouble::WrongReply)),
        Ok(Reading::Faulty(trouble)) => Err(NoOffer::Failed(trouble)),
        Err(_) => Err(NoOffer::Memory),
    }
}

/// What was wrong with the last try, if there is trouble.
pub(crate) fn trouble_of(end: &Result<Offer, NoOffer>) -> Option<Trouble>
    ensures { result ≡ trouble_of end.now }
{
    match end {
        Err(NoOffer::Failed(trouble)) => Some(*trouble),
        _ => None,
    }
}

/// The count of troubles, with one more where there is trouble.
pub(crate) fn troubles_with(count: u64, trouble: Option<Trouble>) -> u64
    ensures { result ≡ troubles_with count trouble }
{
    match trouble {
        Some(_) => count.saturating_add(1),
        None => count,
    }
}

/// The end of all tries, as a source tells it.
pub(crate) fn answer_of(end: Result<Offer, NoOffer>) -> Result<Offer, SourceFault>
    ensures { result ≡ answer_of end }
{
    match end {
        Ok(offer) => Ok(offer),
        Err(NoOffer::Failed(_)) => Err(SourceFault::Trouble),
        Err(NoOffer::Memory) => Err(SourceFault::Memory),
    }
}

// Asks this way, up to three times.
fn ask_by<L: Link>(
    alloc: Global,
    link: &mut L,
    way: Way,
    id: &mut u16,
    name: &Name,
) -> Result<Reading, MemoryFault>
    requires { TellsSet (L.state link.old) }
    ensures asks { Asks 3 1 name.now id.old id.new (L.state link.old) (L.state link.new)
        (λ last. ComesTo 3 last name.now (L.state link.old) (L.state link.new) result) }
    ensures way { (L.state link.new).way ≡ way }
{
    let read = try_once(alloc, link, way, id, name);
    if !is_faulty(&read) {
        return read;
    }
    ask_twice(alloc, link, way, id, name)
}

// Asks this way, up to two times.
fn ask_twice<L: Link>(
    alloc: Global,
    link: &mut L,
    way: Way,
    id: &mut u16,
    name: &Name,
) -> Result<Reading, MemoryFault>
    requires { TellsSet (L.state link.old) }
    ensures asks { Asks 2 1 name.now id.old id.new (L.state link.old) (L.state link.new)
        (λ last. ComesTo 2 last name.now (L.state link.old) (L.state link.new) result) }
    ensures way { (L.state link.new).way ≡ way }
{
    let read = try_once(alloc, link, way, id, name);
    if !is_faulty(&read) {
        return read;
    }
    try_once(alloc, link, way, id, name)
}

fn is_faulty(read: &Result<Reading, MemoryFault>) -> bool
    ensures { IsTrue result ↔ ((trouble : Troubles) × (read.now ≡ Ok (reading.Faulty trouble))) }
{
    matches!(read, Ok(Reading::Faulty(_)))
}

// One exchange.
fn try_once<L: Link>(
    alloc: Global,
    link: &mut L,
    way: Way,
    id: &mut u16,
    name: &Name,
) -> Result<Reading, MemoryFault>
    requires { TellsSet (L.state link.old) }
    ensures asks { Asks 1 1 name.now id.old id.new (L.state link.old) (L.state link.new)
        (λ last. ComesTo 1 last name.now (L.state link.old) (L.state link.new) result) }
    ensures way { (L.state link.new).way ≡ way }
{
    let number = *id;
    *id = number.wrapping_add(1);
    let query = query_for(number, name);
    match link.exchange(way, query.as_slice()) {
        Ok(()) => read_reply(alloc, number, name, way, link.held()),
        Err(Failed) => Ok(Reading::Faulty(Trouble::LinkFault)),
    }
}
