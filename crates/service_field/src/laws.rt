//! That texts have one reading and case is ignored. Each function does nothing: its contract is a law, proved like any
//! other contract.
ghost use Rattle.service_field.specs.Laws.{FaultsIgnoreCase, OneListOfServices, OneService, OneSnaptrList};
ghost use Rattle.service_field.specs.Laws.{OneWantedList, ServicesIgnoreCase, SnaptrFaultsIgnoreCase};
ghost use Rattle.service_field.specs.Laws.{SnaptrServicesIgnoreCase, SnaptrWantedIgnoresCase, WantedIgnoresCase};

/// A text spells one list of items at most.
pub fn one_spelling()
    ensures services { OneListOfServices }
    ensures wanted { OneWantedList }
    ensures snaptr_services { OneService }
    ensures snaptr_wanted { OneSnaptrList }
{}

/// The case of services matters to nothing.
pub fn services_ignore_case()
    ensures faults { FaultsIgnoreCase }
    ensures serving { ServicesIgnoreCase }
    ensures snaptr_faults { SnaptrFaultsIgnoreCase }
    ensures snaptr_serving { SnaptrServicesIgnoreCase }
{}

/// The case of a wanted list matters to nothing.
pub fn wanted_ignores_case()
    ensures serving { WantedIgnoresCase }
    ensures snaptr_serving { SnaptrWantedIgnoresCase }
{}
