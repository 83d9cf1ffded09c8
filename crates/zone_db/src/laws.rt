//! Laws of sets of zones, and of look-up in them.
ghost use Rattle.zone_db.specs.Laws.{ZonesHaveOneAddFault, ZonesFitOrHaveAnAddFault, FittingZonesHaveNoAddFault};
ghost use Rattle.zone_db.specs.Laws.{ZonesShowOneAnswer, ZonesShowAnAnswer, FoundIsOffered, FoundIsReadable, ToldRulesAreApart};

/// A zone fits into a set or has one fault by which it does not go into it, and none but `Memory` where it fits.
pub fn one_add_fault()
    ensures some { ZonesFitOrHaveAnAddFault }
    ensures one { ZonesHaveOneAddFault }
    ensures none { FittingZonesHaveNoAddFault }
{}

/// Zones show one answer for a name and a kind.
pub fn one_answer()
    ensures { ZonesShowOneAnswer }
{}

/// Zones show an answer for every name and kind.
pub fn some_answer()
    ensures { ZonesShowAnAnswer }
{}

/// What is read as an offer from what is found for NAPTR records is the offer of the zones as they are told.
pub fn found_is_offered()
    ensures { FoundIsOffered }
{}

/// An alias that is found is one CNAME, and a set that is found is not large.
pub fn found_is_readable()
    ensures { FoundIsReadable }
{}

/// Rules that stand at one name of a valid zone and rank equal are one rule.
pub fn rules_are_apart()
    ensures { ToldRulesAreApart }
{}
