//! A label that is being read.

use enum_base::Buffer;

/// At most 63 bytes (RFC 1035, 2.3.4).
pub(crate) type Label = Buffer<63>;
