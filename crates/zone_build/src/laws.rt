//! Laws of zones.
ghost use Rattle.zone_build.specs.Laws.{RecordsMakeOneZone, RecordsMakeAZoneOrHaveAFault, RecordsHaveOneFault, BuiltRecordsHaveNoFault};

/// Records make one zone.
pub fn one_zone()
    ensures { RecordsMakeOneZone }
{}

/// Records make a valid zone or have a fault, as long as they are of the class and the kinds of zones.
pub fn zone_or_fault()
    ensures { RecordsMakeAZoneOrHaveAFault }
{}

/// Records have one fault, and none where they make a valid zone, but for running out of memory.
pub fn one_zone_fault()
    ensures one { RecordsHaveOneFault }
    ensures none { BuiltRecordsHaveNoFault }
{}
