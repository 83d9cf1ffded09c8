//! S-NAPTR and U-NAPTR as applications of the DDDS algorithm.
use crate::{flags, services};
use enum_base::Text255;
use service_field::{DddsApp, Kind, ServiceFault, Wanted};

/// S-NAPTR: `s` and `a` are the flags, and no rule has a REGEXP (RFC 3958, section 6). Case is ignored in flags and
/// services.
#[derive(Clone, Copy, Debug, Default)]
pub struct SnaptrApp;

/// U-NAPTR: S-NAPTR with the flag `u`, whose rules turn the whole text into a URI (RFC 4848, section 2). Case is
/// ignored in flags and services.
#[derive(Clone, Copy, Debug, Default)]
pub struct UnaptrApp;

impl DddsApp for SnaptrApp {
    ghost use Rattle.snaptr_app.specs.App.{snaptr_flag, snaptr_meaning};
    ghost use Rattle.snaptr_app.specs.AppLaws.{kind_folds, serves_folded, serves_folded_wanted, faulty_serves_nothing};

    ghost meaning = { λ app. snaptr_meaning };

    ghost kind_folds = { λ app flags. kind_folds snaptr_flag flags };

    ghost fits_folds = { λ app wanted services. serves_folded wanted services };

    ghost wanted_folds = { λ app wanted services. serves_folded_wanted wanted services };

    ghost faulty_fits_nothing = { λ app wanted services. faulty_serves_nothing wanted services };

    /// No flags, `s`, `a`, or unknown ones.
    fn kind(&self, flags: &Text255) -> Kind {
        flags::snaptr_kind(flags.as_bytes())
    }

    /// Whether the services are well formed and fit what is wanted.
    fn fits(&self, wanted: Wanted<'_>, services: &Text255) -> bool {
        services::serve(wanted, services.as_bytes())
    }

    /// The first fault of services of S-NAPTR.
    fn services_fault(&self, services: &Text255) -> Option<ServiceFault> {
        services::fault(services.as_bytes())
    }

    /// No rule may give its next domain by REGEXP.
    fn regexp_step(&self) -> bool {
        false
    }

    /// No rule gives a URI.
    fn strict_uri(&self) -> bool {
        false
    }
}

impl DddsApp for UnaptrApp {
    ghost use Rattle.snaptr_app.specs.App.{unaptr_flag, unaptr_meaning};
    ghost use Rattle.snaptr_app.specs.AppLaws.{kind_folds, serves_folded, serves_folded_wanted, faulty_serves_nothing};

    ghost meaning = { λ app. unaptr_meaning };

    ghost kind_folds = { λ app flags. kind_folds unaptr_flag flags };

    ghost fits_folds = { λ app wanted services. serves_folded wanted services };

    ghost wanted_folds = { λ app wanted services. serves_folded_wanted wanted services };

    ghost faulty_fits_nothing = { λ app wanted services. faulty_serves_nothing wanted services };

    /// No flags, `s`, `a`, `u`, or unknown ones.
    fn kind(&self, flags: &Text255) -> Kind {
        flags::unaptr_kind(flags.as_bytes())
    }

    /// Whether the services are well formed and fit what is wanted.
    fn fits(&self, wanted: Wanted<'_>, services: &Text255) -> bool {
        services::serve(wanted, services.as_bytes())
    }

    /// The first fault of services, which are those of S-NAPTR.
    fn services_fault(&self, services: &Text255) -> Option<ServiceFault> {
        services::fault(services.as_bytes())
    }

    /// No rule may give its next domain by REGEXP.
    fn regexp_step(&self) -> bool {
        false
    }

    /// A rule that gives a URI has the whole text alone as its expression (RFC 4848, section 2.2).
    fn strict_uri(&self) -> bool {
        true
    }
}
