//! A walk under way.
ghost use Rattle.std.specs.Prelude.{◌≡◌, ◌≢◌, ◌↔◌, ◌≤◌, ◌<◌, ◌+◌, [], ◌∷◌, ◌++◌, length, map, slice_get, filter_map};
ghost use Rattle.std.specs.Prelude.{option_to_list, Contains, IsTrue, Some, None, IfOk, OnOk};
ghost use Rattle.dns_name.specs.Name.{folded_labels};
ghost use Rattle.naptr_data.specs.Sources.{AreDistinct, HasFewRules};
ghost use Rattle.naptr_data.specs.declared.offer.Offer.TheVariants as Offer;
ghost use Rattle.ddds_walk.specs.Clients.{meant};
ghost use Rattle.ddds_walk.specs.Turns.{IsSound, IsAtStep, IsAtStop, IsOnTheWay, HasAsked, HasMoved, HasTurned};
ghost use Rattle.ddds_walk.specs.Turns.{IsNextEnd, IsPlaced, Notes, Opens, Sees, at_root, derivation_of};
ghost use Rattle.ddds_walk.specs.Ways.{domains_of};
ghost use Rattle.ddds_walk.specs.declared.edge.Edge.TheVariants.{Step};
ghost use Rattle.ddds_walk.specs.declared.walker.Turn.TheVariants as Turn;

use crate::asked::Asked;
use crate::client::Client;
use crate::derivation::Derivation;
use crate::domain_edges::edges_of;
use crate::edge::{Edge, Edges};
use crate::fault::WalkFault;
use crate::frame::{Frame, Frames};
use crate::report::{End, Ends, LoopPath, Outcome};
use dns_name::{Name, Names};
use enum_base::{MemoryFault, Ranks};
use naptr_data::{Offer, RuleSource, SourceFault};
use service_field::DddsApp;
use std::alloc::Global;
use std::mem::replace;

// A walk under way. It opens each domain once, and follows the edges of the topmost frame in their order.
#[derive(Drop)]
pub(crate) struct Walker {
    // The folded domains that were asked for, in this order.
    pub(crate) asked: Asked,
    // The ends that were found.
    pub(crate) ends: Ends,
    // The frames on the way to the topmost one, the root first.
    pub(crate) below: Frames,
    pub(crate) top: Frame,
}

// What one turn finds.
#[derive(Drop)]
pub(crate) enum Turn {
    // The walk goes on.
    On,
    // All edges were followed.
    Done,
    // The next domain is on the way already.
    Back(LoopPath),
}

// The edge that is followed next.
#[derive(Clone, Copy, Debug)]
pub(crate) enum Next {
    // All edges of the topmost frame were followed.
    None,
    // It leads to this domain.
    Step(Name),
    // It is that of a terminal rule.
    Stop,
}

impl Walker {
    // A walk that stands at the root, from which one edge leads to each key.
    pub(crate) fn start(alloc: Global, keys: &[Name]) -> Result<Walker, MemoryFault>
        ensures { IfOk result (λ w. w ≡ at_root (map folded_labels keys.now)) }
    {
        Ok(Walker {
            asked: Asked::new(alloc),
            ends: Ends::new(alloc),
            below: Frames::new(alloc),
            top: Frame {
                domain: None,
                edges: steps_to(alloc, keys)?,
                rank: 0,
            },
        })
    }

    // Follows the next edge, or leaves the topmost frame.
    pub(crate) fn turn<P: DddsApp, S: RuleSource>(
        &mut self,
        alloc: Global,
        client: &Client<'_, P>,
        source: &mut S,
        limit: u32,
    ) -> Result<Turn, WalkFault>
        requires sound { IsSound limit self.old }
        ensures turned { HasTurned (meant P.meaning client.now) limit (S.state source.old) (S.state source.new)
            self.old self.new result }
    {
        match self.next_edge() {
            Next::None => Ok(self.leave(limit)),
            Next::Step(next) => self.follow(alloc, client, source, limit, &next),
            Next::Stop => {
                self.stop(alloc, limit)?;
                Ok(Turn::On)
            }
        }
    }

    // The edge that is followed next.
    fn next_edge(&self) -> Next
        ensures { Sees self.now result }
    {
        match self.top.edges.as_slice().get(self.top.rank as usize) {
            None => Next::None,
            Some(Edge::Step(domain)) => Next::Step(*domain),
            Some(Edge::Stop(_, _)) => Next::Stop,
        }
    }

    // Goes on after the edge that was followed.
    fn advance(&mut self)
        requires { self.old.top.rank < 65_536 }
        ensures { self.new ≡ record self.old { top = record self.old.top { rank = self.old.top.rank + 1 } } }
    {
        self.top.rank += 1;
    }

    // Leaves the topmost frame, whose edges were all followed.
    fn leave(&mut self, limit: u32) -> Turn
        requires sound { IsSound limit self.old }
        requires all { slice_get self.old.top.edges self.old.top.rank ≡ None }
        ensures moved { HasMoved limit self.old self.new result }
    {
        let Some(frame) = self.below.pop() else {
            return Turn::Done;
        };
        self.top = frame;
        self.top.rank += 1;
        Turn::On
    }

    // Notes the end of a terminal rule. The root has none.
    fn stop(&mut self, alloc: Global, limit: u32) -> Result<(), MemoryFault>
        requires sound { IsSound limit self.old }
        requires domain { self.old.top.domain ≢ None }
        requires here { IsAtStop self.old }
        ensures asked { self.new.asked ≡ self.old.asked }
        ensures moved { IfOk result (λ _. HasMoved limit self.old self.new Turn.On) }
    {
        let end = self.next_end(alloc)?;
        self.ends.push(end)?;
        self.advance();
        Ok(())
    }

    // The end of the terminal rule that is followed next.
    fn next_end(&self, alloc: Global) -> Result<End, MemoryFault>
        requires placed { IsPlaced self.now }
        requires domain { self.now.top.domain ≢ None }
        requires here { IsAtStop self.now }
        ensures { IfOk result (IsNextEnd self.now) }
    {
        let Some(domain) = self.top.domain else {
            unreachable!();
        };
        match self.top.edges.as_slice().get(self.top.rank as usize) {
            Some(Edge::Stop(rule, outcome)) => {
                let Derivation { place, ranks } = self.derivation(alloc)?;
                Ok(End {
                    place,
                    ranks,
                    domain,
                    rule: Some(*rule),
                    outcome: outcome.copy(alloc)?,
                })
            }
            _ => unreachable!(),
        }
    }

    // Follows an edge to another domain.
    fn follow<P: DddsApp, S: RuleSource>(
        &mut self,
        alloc: Global,
        client: &Client<'_, P>,
        source: &mut S,
        limit: u32,
        next: &Name,
    ) -> Result<Turn, WalkFault>
        requires sound { IsSound limit self.old }
        requires here { IsAtStep self.old next.now }
        ensures turned { HasTurned (meant P.meaning client.now) limit (S.state source.old) (S.state source.new)
            self.old self.new result }
    {
        if !self.asked.has(next) {
            return self.enter(alloc, client, source, limit, next);
        }
        if self.is_on_the_way(next) {
            let path = self.back(alloc, limit, next)?;
            return Ok(Turn::Back(path));
        }
        self.skip(limit, next);
        Ok(Turn::On)
    }

    // The loop that an edge to a domain on the way closes.
    fn back(&self, alloc: Global, limit: u32, next: &Name) -> Result<LoopPath, MemoryFault>
        requires sound { IsSound limit self.now }
        requires here { IsAtStep self.now next.now }
        requires on { IsOnTheWay self.now next.now }
        ensures moved { IfOk result (λ path. HasMoved limit self.now self.now (Turn.Back path)) }
    {
        let Derivation { place, ranks } = self.derivation(alloc)?;
        let domains = self.domains(alloc, next)?;
        Ok(LoopPath {
            place,
            ranks,
            domains,
        })
    }

    // Passes over an edge to a domain that was asked for, and is not on the way.
    fn skip(&mut self, limit: u32, next: &Name)
        requires sound { IsSound limit self.old }
        requires here { IsAtStep self.old next.now }
        requires asked { Contains self.old.asked next.now }
        requires away { ¬ IsOnTheWay self.old next.now }
        ensures moved { HasMoved limit self.old self.new Turn.On }
    {
        self.advance();
    }

    // Asks for the domain of an edge, and goes down to it.
    fn enter<P: DddsApp, S: RuleSource>(
        &mut self,
        alloc: Global,
        client: &Client<'_, P>,
        source: &mut S,
        limit: u32,
        next: &Name,
    ) -> Result<Turn, WalkFault>
        requires sound { IsSound limit self.old }
        requires here { IsAtStep self.old next.now }
        requires new { ¬ Contains self.old.asked next.now }
        ensures turned { HasTurned (meant P.meaning client.now) limit (S.state source.old) (S.state source.new)
            self.old self.new result }
    {
        let offer = ask(alloc, &mut self.asked, source, limit, next)?;
        self.open(alloc, client, next, &offer)?;
        Ok(Turn::On)
    }

    // Goes down to a domain that was asked for.
    fn open<P: DddsApp>(
        &mut self,
        alloc: Global,
        client: &Client<'_, P>,
        next: &Name,
        offer: &Offer,
    ) -> Result<(), MemoryFault>
        requires few { HasFewRules offer.now }
        requires placed { IsPlaced self.old }
        ensures asked { self.new.asked ≡ self.old.asked }
        ensures opens { OnOk result (Opens (meant P.meaning client.now) next.now offer.now self.old self.new) }
    {
        self.note(alloc, next, offer)?;
        let edges = edges_of(alloc, client, offer)?;
        let frame = Frame {
            domain: Some(*next),
            edges,
            rank: 0,
        };
        self.below.push(replace(&mut self.top, frame))
    }

    // Notes an end where nobody serves the domain.
    fn note(&mut self, alloc: Global, next: &Name, offer: &Offer) -> Result<(), MemoryFault>
        requires placed { IsPlaced self.old }
        ensures asked { self.new.asked ≡ self.old.asked }
        ensures notes { OnOk result (Notes next.now offer.now self.old self.new) }
    {
        if !is_unserved(offer) {
            return Ok(());
        }
        let Derivation { place, ranks } = self.derivation(alloc)?;
        self.ends.push(End {
            place,
            ranks,
            domain: *next,
            rule: None,
            outcome: Outcome::Unserved,
        })
    }

    // The derivation to the edge that is followed next. The rank at the root is the place of the key.
    fn derivation(&self, alloc: Global) -> Result<Derivation, MemoryFault>
        requires placed { IsPlaced self.now }
        ensures { IfOk result (λ way. way ≡ derivation_of self.now) }
    {
        Ok(Derivation {
            place: self.place(),
            ranks: self.ranks(alloc)?,
        })
    }

    // The place of the key that the derivation leads from.
    fn place(&self) -> u8
        requires placed { IsPlaced self.now }
        ensures { result ≡ (derivation_of self.now).place }
    {
        match self.below.as_slice() {
            [] => self.top.rank as u8,
            [root, ..] => root.rank as u8,
        }
    }

    // The ranks of the derivation, from the key on.
    fn ranks(&self, alloc: Global) -> Result<Ranks, MemoryFault>
        ensures { IfOk result (λ ranks. ranks ≡ (derivation_of self.now).ranks) }
    {
        let mut ranks = Ranks::new(alloc);
        let Some((_, below)) = self.below.as_slice().split_first() else {
            return Ok(ranks);
        };
        for frame in below {
            ranks.push(frame.rank)?;
        }
        ranks.push(self.top.rank)?;
        Ok(ranks)
    }

    // The domains on the way, and this one after them.
    fn domains(&self, alloc: Global, last: &Name) -> Result<Names, MemoryFault>
        ensures { IfOk result (λ names. names ≡
            filter_map (λ d. d) (domains_of self.now.below ++ self.now.top.domain ∷ []) ++ last.now ∷ []) }
    {
        let mut names = Names::new(alloc);
        for frame in self.below.as_slice() {
            push_domain(&mut names, frame.domain)?;
        }
        push_domain(&mut names, self.top.domain)?;
        names.push(*last)?;
        Ok(names)
    }

    // Whether the domain is on the way to the topmost frame, or its domain.
    fn is_on_the_way(&self, domain: &Name) -> bool
        ensures { IsTrue result ↔ IsOnTheWay self.now domain.now }
    {
        is_among(self.below.as_slice(), domain) || is_domain(self.top.domain, *domain)
    }
}

// One edge to each key, folded.
fn steps_to(alloc: Global, keys: &[Name]) -> Result<Edges, MemoryFault>
    ensures { IfOk result (λ edges. edges ≡ map (λ key. Step key) (map folded_labels keys.now)) }
{
    let mut edges = Edges::new(alloc);
    for key in keys {
        edges.push(Edge::Step(key.fold()))?;
    }
    Ok(edges)
}

// Asks for a domain, unless so many were asked as the limit allows.
fn ask<S: RuleSource>(
    alloc: Global,
    asked: &mut Asked,
    source: &mut S,
    limit: u32,
    next: &Name,
) -> Result<Offer, WalkFault>
    requires once { AreDistinct asked.old }
    requires few { length asked.old ≤ limit }
    requires new { ¬ Contains asked.old next.now }
    requires folded { folded_labels next.now ≡ next.now }
    ensures asked { HasAsked limit (S.state source.old) (S.state source.new) asked.old asked.new next.now result }
{
    if asked.len() >= limit as usize {
        return Err(WalkFault::Limit { asked: limit });
    }
    asked.push(next)?;
    match source.offer(alloc, next) {
        Ok(offer) => Ok(offer),
        Err(SourceFault::Trouble) => Err(WalkFault::Trouble),
        Err(SourceFault::Memory) => Err(WalkFault::Memory),
    }
}

fn is_unserved(offer: &Offer) -> bool
    ensures { IsTrue result ↔ (offer.now ≡ Offer.Unserved) }
{
    matches!(offer, Offer::Unserved)
}

fn push_domain(names: &mut Names, domain: Option<Name>) -> Result<(), MemoryFault>
    ensures { OnOk result (names.new ≡ names.old ++ option_to_list domain) }
{
    match domain {
        Some(name) => names.push(name),
        None => Ok(()),
    }
}

fn is_among(frames: &[Frame], domain: &Name) -> bool
    ensures { IsTrue result ↔ Contains (domains_of frames.now) (Some domain.now) }
{
    for frame in frames {
        if is_domain(frame.domain, *domain) {
            return true;
        }
    }
    false
}

fn is_domain(place: Option<Name>, domain: Name) -> bool
    ensures { IsTrue result ↔ (place ≡ Some domain) }
{
    match place {
        Some(name) => name == domain,
        None => false,
    }
}
