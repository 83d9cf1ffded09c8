//! Which services serve.
ghost use Rattle.std.specs.Prelude.{◌≡◌};
ghost use Rattle.service_field.specs.Faults.{snaptr_fault};
ghost use Rattle.service_field.specs.Wanted.{wanted_text};
ghost use Rattle.snaptr_app.specs.App.{serves};

use service_field::{ServiceFault, Wanted, fits_snaptr, read_snaptr};

/// Whether the services are well formed and fit what is wanted.
pub(crate) fn serve(wanted: Wanted<'_>, services: &[u8]) -> bool
    ensures { result ≡ serves (wanted_text wanted.entry) services.now }
{
    match read_snaptr(services) {
        Ok(services) => fits_snaptr(wanted, services),
        Err(_) => false,
    }
}

/// The first fault of services.
pub(crate) fn fault(services: &[u8]) -> Option<ServiceFault>
    ensures { result ≡ snaptr_fault services.now }
{
    read_snaptr(services).err()
}
