//! An application for which all flags mean the same, and all services serve.

use enum_base::Text255;
use service_field::{DddsApp, Kind, ServiceFault, Wanted};

#[derive(Clone, Copy, Debug)]
pub struct Always {
    pub kind: Kind,
}

impl DddsApp for Always {
    ghost use Rattle.std.specs.Prelude.{refl, true, false, None};
    ghost use Rattle.std.proofs.Common.{sym};

    ghost meaning = { λ app. record {
      kind = λ flags. app.kind;
      serves = λ wanted services. true;
      fault = λ services. None;
      steps_by_regexp = true;
      wants_whole = false;
    } };

    fn kind(&self, _flags: &Text255) -> Kind {
        self.kind
    }

    fn fits(&self, _wanted: Wanted<'_>, _services: &Text255) -> bool {
        true
    }

    fn services_fault(&self, _services: &Text255) -> Option<ServiceFault> {
        None
    }

    fn regexp_step(&self) -> bool {
        true
    }

    fn strict_uri(&self) -> bool {
        false
    }

    ghost kind_folds = { λ app flags. refl };

    ghost fits_folds = { λ app wanted services. refl };

    ghost wanted_folds = { λ app wanted services. refl };

    ghost faulty_fits_nothing = { λ app wanted services faulty. sym faulty };
}
