//! A server as a source of rules.
ghost use Rattle.std.specs.Prelude.{◌≡◌};
ghost use Rattle.wire_source.specs.Tries.{Keeps};

use crate::tries::{answer_of, ask, trouble_of, troubles_with};
use crate::trouble::Trouble;
use dns_name::Name;
use naptr_data::{Offer, RuleSource, SourceFault};
use std::alloc::Global;
use zone_db::{Counts, Link, Way};

/// A server that is asked for rules over a link. It tells the zones that its link tells, and keeps no names.
#[derive(Drop)]
pub struct WireSource<'a, L: Link> {
    link: &'a mut L,
    // The counts of the link when the source was made.
    before: Counts,
    // The number of the next query.
    id: u16,
    asks: u64,
    troubles: u64,
    trouble: Option<Trouble>,
    ghost keeps: { ∥ Keeps before (L.state link.now) asks trouble ∥₁ },
}

impl<'a, L: Link> WireSource<'a, L> {
    ghost use Rattle.std.specs.Prelude.{None};

    /// A source that has asked nothing. The queries have numbers from `first_id` on. Takes no memory.
    pub fn new(_alloc: Global, link: &'a mut L, first_id: u16) -> WireSource<'a, L>
        ensures same_reference { result.link.ghost_name ≡ link.entry.ghost_name }
        ensures before { result.before ≡ record { exchanges = (L.state link.old).exchanges; faults = (L.state link.old).faults } }
        ensures id { result.id ≡ first_id }
        ensures asks { result.asks ≡ 0 }
        ensures troubles { result.troubles ≡ 0 }
        ensures trouble { result.trouble ≡ None }
    {
        let before = link.counts();
        WireSource {
            link,
            before,
            id: first_id,
            asks: 0,
            troubles: 0,
            trouble: None,
        }
    }

    /// What was wrong with the last try, if the last offer was trouble. Takes no memory.
    pub fn last_trouble(&self) -> Option<Trouble>
        ensures { result ≡ self.now.trouble }
    {
        self.trouble
    }
}

impl<L: Link> RuleSource for WireSource<'_, L> {
    ghost use Rattle.std.specs.Prelude.{◌≤◌, ◌∷◌, [], IfOk, option_map};
    ghost use Rattle.dns_name.specs.Name.{folded_labels};
    ghost use Rattle.enum_base.specs.Causes.{many_more, one_more};
    ghost use Rattle.enum_base.specs.Outside.{WhereTold};
    ghost use Rattle.naptr_data.specs.Sources.{AreKept, Fetches, HasFewRules, HasTrouble, KeepsNames};
    ghost use Rattle.naptr_data.specs.Zones.{IsOffer};
    ghost use Rattle.zone_build.specs.Plain.{told};
    ghost use Rattle.wire_source.specs.Tries.{Answers, Asks, lent_of, source_state};

    ghost state = { λ s. source_state (L.state s.link.now) s.asks s.troubles s.trouble (lent_of s.link.ghost_name s.before) };

    /// What is at the name, as the server tells it: by datagram, and on a stream where the reply was cut short, in at most
    /// three tries of each way. A query has the next number.
    ///
    /// # Errors
    /// `Trouble`, only where three tries of one way failed; `last_trouble` then tells what was wrong with the last. `Memory`;
    /// the first try comes before any memory is taken.
    fn offer(&mut self, alloc: Global, name: &Name) -> Result<Offer, SourceFault>
        ensures zones { option_map told (L.state self.new.link.now).zones ≡ option_map told (L.state self.old.link.now).zones }
        ensures offered { IfOk result (λ offer. WhereTold (option_map told (L.state self.old.link.now).zones) (λ zones. IsOffer zones name.now offer)) }
        ensures few { IfOk result HasFewRules }
        ensures asks { self.new.asks ≡ one_more self.old.asks }
        ensures trouble { HasTrouble
            (source_state (L.state self.old.link.now) self.old.asks self.old.troubles self.old.trouble (lent_of self.old.link.ghost_name self.old.before))
            (source_state (L.state self.new.link.now) self.new.asks self.new.troubles self.new.trouble (lent_of self.new.link.ghost_name self.new.before)) result }
        ensures keeps { KeepsNames 0 (folded_labels name.now) [] [] result }
        ensures fetched { Fetches (folded_labels name.now) [] self.old.asks self.new.asks }
        ensures before { AreKept [] self.old.asks }
        ensures after { AreKept [] self.new.asks }
        ensures lent { lent_of self.new.link.ghost_name self.new.before ≡ lent_of self.old.link.ghost_name self.old.before }
        ensures asked { Asks 6 2 name.now self.old.id self.new.id (L.state self.old.link.now) (L.state self.new.link.now)
            (λ last. Answers last name.now (L.state self.old.link.now) (L.state self.new.link.now) self.new.trouble result) }
        ensures datagram { (L.state self.new.link.now).way ≡ Way.Stream → many_more (L.state self.old.link.now).exchanges 2 ≤ (L.state self.new.link.now).exchanges }
        ensures since { self.new.before ≡ self.old.before }
    {
        // The type of the link keeps that zones which it tells are a set.
        let _counts = self.link.counts();
        self.trouble = None;
        let asked = ask(alloc, self.link, &mut self.id, name);
        self.asks = self.asks.saturating_add(1);
        self.trouble = trouble_of(&asked);
        self.troubles = troubles_with(self.troubles, self.trouble);
        answer_of(asked)
    }
}
