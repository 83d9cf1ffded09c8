//! Applications of the DDDS algorithm.
ghost use Rattle.std.specs.Prelude.{◌≡◌, ℕ, false, List, Option, option_map, IsSome};
ghost use Rattle.enum_base.specs.Folding.{folded};
ghost use Rattle.service_field.specs.Applications.{Meaning};
ghost use Rattle.service_field.specs.Wanted.{wanted_text};

use crate::{Kind, ServiceFault, Wanted};
use enum_base::Text255;

/// An application of the DDDS algorithm: what flags mean, and which services serve (RFC 3402, section 4;
/// RFC 3403, section 4.1).
pub trait DddsApp {
    /// What it makes of flags and services.
    ghost meaning: { Self → Meaning };

    /// What the flags of a rule mean.
    fn kind(&self, flags: &Text255) -> Kind
        ensures { result ≡ (meaning self.now).kind flags.now };

    /// Whether the services of a rule serve what is wanted.
    fn fits(&self, wanted: Wanted<'_>, services: &Text255) -> bool
        ensures { result ≡ (meaning self.now).serves (wanted_text wanted.entry) services.now };

    /// The first fault of a rule's services, or `None` where they are well formed.
    fn services_fault(&self, services: &Text255) -> Option<ServiceFault>
        ensures { result ≡ (meaning self.now).fault services.now };

    /// Whether a rule that is not terminal may give its next domain by REGEXP.
    fn regexp_step(&self) -> bool
        ensures { result ≡ (meaning self.now).steps_by_regexp };

    /// Whether provisioning takes the whole text alone as an expression of a URI rule.
    fn strict_uri(&self) -> bool
        ensures { result ≡ (meaning self.now).wants_whole };

    /// The case of flags is ignored.
    ghost kind_folds: { (app : Self) (flags : List ℕ) → (meaning app).kind (folded flags) ≡ (meaning app).kind flags };

    /// The case of services is ignored.
    ghost fits_folds: { (app : Self) (wanted : Option (List ℕ)) (services : List ℕ) →
        (meaning app).serves wanted (folded services) ≡ (meaning app).serves wanted services };

    /// The case of a wanted list is ignored.
    ghost wanted_folds: { (app : Self) (wanted : Option (List ℕ)) (services : List ℕ) →
        (meaning app).serves (option_map folded wanted) services ≡ (meaning app).serves wanted services };

    /// Faulty services serve nothing.
    ghost faulty_fits_nothing: { (app : Self) (wanted : Option (List ℕ)) (services : List ℕ) →
        IsSome ((meaning app).fault services) → (meaning app).serves wanted services ≡ false };
}
