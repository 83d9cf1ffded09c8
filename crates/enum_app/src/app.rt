//! ENUM as an application of the DDDS algorithm.
use enum_base::Text255;
use service_field::{DddsApp, Kind, ServiceFault, Wanted, fits_enum, read_enum};

/// ENUM: `u` is the one flag, and services begin with `E2U` (RFC 6116, section 3.4). Case is ignored in both.
#[derive(Clone, Copy, Debug, Default)]
pub struct EnumApp;

impl DddsApp for EnumApp {
    ghost use Rattle.enum_app.specs.App.{enum_meaning};
    ghost use Rattle.enum_app.specs.AppLaws.{kind_folds, serves_folded, serves_folded_wanted, faulty_serves_nothing};

    ghost meaning = { λ app. enum_meaning };

    ghost kind_folds = { λ app flags. kind_folds flags };

    ghost fits_folds = { λ app wanted services. serves_folded wanted services };

    ghost wanted_folds = { λ app wanted services. serves_folded_wanted wanted services };

    ghost faulty_fits_nothing = { λ app wanted services. faulty_serves_nothing wanted services };

    /// No flags, `u`, or unknown ones.
    fn kind(&self, flags: &Text255) -> Kind {
        match flags.as_bytes() {
            [] => Kind::Step,
            [b'u' | b'U'] => Kind::TerminalUri,
            _ => Kind::Unknown,
        }
    }

    /// Whether the services are well formed and some item fits what is wanted.
    fn fits(&self, wanted: Wanted<'_>, services: &Text255) -> bool {
        match read_enum(services.as_bytes()) {
            Ok(services) => fits_enum(wanted, services),
            Err(_) => false,
        }
    }

    /// The first fault of services of ENUM.
    fn services_fault(&self, services: &Text255) -> Option<ServiceFault> {
        read_enum(services.as_bytes()).err()
    }

    /// A rule that is not terminal may give its next domain by REGEXP.
    fn regexp_step(&self) -> bool {
        true
    }

    /// Any expression may stand in a rule that gives a URI.
    fn strict_uri(&self) -> bool {
        false
    }
}
