//! Types of records by name.
ghost use Rattle.std.specs.Prelude.{◌≡◌, ◌++◌, OnOk};
ghost use Rattle.message_text.specs.Shown.{kind_text};

use dns_wire::kinds::kind_word;
use enum_base::{Bytes, MemoryFault, push_number};

/// Appends the name of a type, or its number after `TYPE` (RFC 3597, section 5).
pub(crate) fn push_kind(kind: u16, out: &mut Bytes) -> Result<(), MemoryFault>
    ensures { OnOk result (out.new ≡ out.old ++ kind_text kind) }
{
    match kind_word(kind) {
        Some(word) => out.push_slice(word),
        None => push_number(b"TYPE", usize::from(kind), out),
    }
}
