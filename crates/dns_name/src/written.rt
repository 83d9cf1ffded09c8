//! A name's text while it is written.
ghost use Rattle.std.specs.Prelude.{◌≡◌, ◌≤◌, ◌+◌, ◌*◌, ◌++◌, length};
ghost use Rattle.dns_name.specs.Text.{byte_text, label_text};

use enum_base::{Buffer, decimal_escape};

/// The text of a name, at most 1024 bytes: a name has at most 255 on the wire, and each is written as at most four.
pub type NameText = Buffer<1024>;

// A byte of a label, as it is written.
fn push_byte(text: &mut NameText, byte: u8)
    requires { length text.old + 4 ≤ 1024 }
    ensures { text.new ≡ text.old ++ byte_text byte }
{
    match byte {
        b'.' | b'\\' | b'"' | b';' | b'(' | b')' | b'@' | b'$' => {
            text.push(b'\\');
            text.push(byte);
        }
        0x21..=0x7E => text.push(byte),
        _ => text.push_slice(&decimal_escape(byte)),
    }
}

/// A label and the dot after it.
pub(crate) fn push_label(text: &mut NameText, label: &[u8])
    requires { length text.old + 4 * length label.now + 1 ≤ 1024 }
    ensures { text.new ≡ text.old ++ label_text label.now }
{
    for byte in label {
        push_byte(text, *byte);
    }
    text.push(b'.');
}
