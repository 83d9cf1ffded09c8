//! Whole pieces into a sink.
ghost use Rattle.std.specs.Prelude.{◌++◌, OnOk};
ghost use Rattle.enum_base.specs.Causes.{HasCause};
ghost use Rattle.enum_base.specs.Writing.{Gains, Takes};

use crate::{Failed, Sink};

/// Writes until all the bytes are written or a write failed.
pub fn write_whole<K: Sink>(sink: &mut K, bytes: &[u8]) -> Result<(), Failed>
    ensures takes { Takes (K.state sink.old) (K.state sink.new) bytes.now }
    ensures whole { OnOk result (Gains (K.state sink.old) (K.state sink.new) bytes.now) }
    ensures cause { HasCause (K.state sink.old).faults (K.state sink.new).faults result }
{
    let mut written = 0;
    while written < bytes.len() {
        let count = sink.write(&bytes[written..])?;
        written += count;
    }
    Ok(())
}

/// Writes two pieces, one after another, until a write failed.
pub fn write_two<K: Sink>(sink: &mut K, first: &[u8], second: &[u8]) -> Result<(), Failed>
    ensures takes { Takes (K.state sink.old) (K.state sink.new) (first.now ++ second.now) }
    ensures whole { OnOk result (Gains (K.state sink.old) (K.state sink.new) (first.now ++ second.now)) }
    ensures cause { HasCause (K.state sink.old).faults (K.state sink.new).faults result }
{
    write_whole(sink, first)?;
    write_whole(sink, second)
}

/// Writes three pieces, one after another, until a write failed.
pub fn write_three<K: Sink>(
    sink: &mut K,
    first: &[u8],
    second: &[u8],
    third: &[u8],
) -> Result<(), Failed>
    ensures takes { Takes (K.state sink.old) (K.state sink.new) (first.now ++ second.now ++ third.now) }
    ensures whole { OnOk result (Gains (K.state sink.old) (K.state sink.new) (first.now ++ second.now ++ third.now)) }
    ensures cause { HasCause (K.state sink.old).faults (K.state sink.new).faults result }
{
    write_two(sink, first, second)?;
    write_whole(sink, third)
}
