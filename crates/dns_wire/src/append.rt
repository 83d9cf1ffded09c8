//! Parts of messages, appended to bytes. When out of memory, the front of them is as it was.
ghost use Rattle.std.specs.Prelude.{◌≡◌, ◌++◌, length, take, OnOk};
ghost use Rattle.std.specs.Int.{w16, w32, to_be_bytes};
ghost use Rattle.dns_wire.specs.Ranges.{AreBytes};

use byteorder::{BigEndian, ByteOrder};
use enum_base::{Bytes, MemoryFault};

/// Appends the bytes.
pub(crate) fn append(more: &[u8], out: &mut Bytes) -> Result<(), MemoryFault>
    ensures ok { OnOk result (out.new ≡ out.old ++ more.now) }
    ensures front { take (length out.old) out.new ≡ out.old }
    ensures fits { AreBytes more.now }
{
    out.push_slice(more)
}

/// Appends the number, the high byte first.
pub(crate) fn append_u16(number: u16, out: &mut Bytes) -> Result<(), MemoryFault>
    ensures ok { OnOk result (out.new ≡ out.old ++ to_be_bytes w16 number) }
    ensures front { take (length out.old) out.new ≡ out.old }
{
    let mut bytes = [0; 2];
    BigEndian::write_u16(&mut bytes, number);
    append(&bytes, out)
}

/// Appends the number, the high byte first.
pub(crate) fn append_u32(number: u32, out: &mut Bytes) -> Result<(), MemoryFault>
    ensures ok { OnOk result (out.new ≡ out.old ++ to_be_bytes w32 number) }
    ensures front { take (length out.old) out.new ≡ out.old }
{
    let mut bytes = [0; 4];
    BigEndian::write_u32(&mut bytes, number);
    append(&bytes, out)
}
