//! What a name in a message is made of.
ghost use Rattle.std.specs.Prelude.{◌≤◌, length};
ghost use Rattle.dns_name.specs.Fields.{IsField};

use crate::wire_fault::WireFault;

/// What stands at a place of a name: its root, a label of that many bytes, or a pointer to that offset.
#[derive(Clone, Copy)]
pub(crate) enum Field {
    Root,
    Label(usize),
    Pointer(usize),
}

/// What stands at that place (RFC 1035, 3.1 and 4.1.4).
pub(crate) fn field_at(message: &[u8], at: usize) -> Result<Field, WireFault>
    requires { at ≤ length message.now }
    ensures { IsField message.now at result }
{
    let room = message.len() - at;
    if room == 0 {
        return Err(WireFault::Short { at });
    }
    let first = usize::from(message[at]);
    if first == 0 {
        return Ok(Field::Root);
    }
    if first < 64 {
        return if room <= first {
            Err(WireFault::Short { at })
        } else {
            Ok(Field::Label(first))
        };
    }
    if first < 192 {
        return Err(WireFault::BadLabelType { at });
    }
    if room < 2 {
        return Err(WireFault::Short { at });
    }
    Ok(Field::Pointer(256 * (first - 192) + usize::from(message[at + 1])))
}
