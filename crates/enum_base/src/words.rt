//! How faults are printed.
ghost use Rattle.std.specs.Prelude.{◌≡◌, ◌≤◌, length};
ghost use Rattle.enum_base.specs.Words.{fault_at};

use crate::Buffer;

/// The name of a fault and its fields, with a space between: at most 1,100 bytes. Each fault tells them in the crate
/// that it stands in.
pub type FaultWords = Buffer<1100>;

/// A fault by its name alone, of at most 40 bytes.
pub fn fault_named(name: &str) -> FaultWords
    requires { length name.now ≤ 40 }
    ensures { result ≡ name.now }
{
    let mut words = Buffer::new();
    words.push_slice(name.as_bytes());
    words
}

/// A fault by its name, of at most 40 bytes, and a number.
pub fn fault_at(name: &str, at: usize) -> FaultWords
    requires { length name.now ≤ 40 }
    ensures { result ≡ fault_at name.now at }
{
    let mut words = fault_named(name);
    words.push(b' ');
    words.push_number(at);
    words
}
