//! Laws of the reading of replies.
ghost use Rattle.wire_source.specs.Laws.{HonestRepliesAreOffers, RepliesHaveOneReading};

/// The reply of zones to a query for the rules at a name is read as what they offer for it, or was cut short.
pub fn honest_replies_are_offers()
    ensures { HonestRepliesAreOffers }
{}

/// A reply is read in one way.
pub fn one_reading()
    ensures { RepliesHaveOneReading }
{}
