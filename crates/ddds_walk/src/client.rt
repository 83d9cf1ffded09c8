//! Who asks.

use enum_base::Text255;
use service_field::{DddsApp, Wanted};

// An application, the services that are wanted, and the string to which every expression is applied (RFC 3402,
// section 3).
#[derive(Drop)]
pub(crate) struct Client<'a, P: DddsApp> {
    pub(crate) app: &'a P,
    pub(crate) wanted: Wanted<'a>,
    pub(crate) aus: &'a Text255,
}
