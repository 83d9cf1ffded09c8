//! RDATA while it is written.
ghost use Rattle.std.specs.Prelude.{◌≡◌, ◌≤◌, ◌+◌, ◌++◌, length};
ghost use Rattle.rdata_field.specs.Strings.{string_wire};

use enum_base::{Buffer, Text255};

/// At most 1027 bytes: two numbers, three character-strings and a name have no more.
pub(crate) type Written = Buffer<1027>;

/// A character-string: its length byte, then its bytes (RFC 1035, 3.3).
pub(crate) fn push_string(written: &mut Written, text: &Text255)
    requires { length written.old + 256 ≤ 1027 }
    ensures text { written.new ≡ written.old ++ string_wire text.now }
    ensures short { length text.now ≤ 255 }
{
    let bytes = text.as_bytes();
    written.push_slice(&[bytes.len() as u8]);
    written.push_slice(bytes);
}
