//! Laws of zones and what they offer.
ghost use Rattle.naptr_data.specs.Laws.{ZonesMakeOneOffer, ApartZonesMakeAnOffer, ZonesMakeAnOffer, SameNamesHaveSameOffers, FoldedNamesHaveSameOffers};

/// Zones offer one thing for a name.
pub fn one_offer()
    ensures { ZonesMakeOneOffer }
{}

/// Zones offer something for every name, as long as no two rules at one name rank equal; so as long as their rules are
/// rules.
pub fn some_offer()
    ensures apart { ApartZonesMakeAnOffer }
    ensures rules { ZonesMakeAnOffer }
{}

/// The case of a name's letters decides nothing.
pub fn offer_folds()
    ensures same { SameNamesHaveSameOffers }
    ensures folded { FoldedNamesHaveSameOffers }
{}
