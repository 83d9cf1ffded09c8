//! A standard stream, or any other writer, as a sink.
ghost use Rattle.std.specs.Prelude.{◌≡◌, ◌<◌, ◌≤◌, ℕ, length, take, None, IfOk, OnErr};
ghost use Rattle.std.specs.Io.KnownBytes.{Appends};
ghost use Rattle.enum_base.specs.Causes.{HasCause};
ghost use Rattle.adapters.specs.Saying.{taken};

use crate::faults::Faults;
use enum_base::{Failed, Sink};
use std::io;
use std::io::Write;
use std::marker::Model;

/// A writer. As a sink it tells nothing of what it holds. Contracts see what the writer holds, where it is one whose bytes
/// are known, and the count of faults, which rises at each error.
#[derive(Drop)]
pub struct StdSink<W: Write + Drop> {
    writer: W,
    faults: Faults,
}

impl<W: Write + Drop> Model for StdSink<W> {
    ghost use Rattle.adapters.specs.Kept.{SinkKept};

    ghost Value = { SinkKept };

    ghost view = { λ s. record { held = W.contents s.writer; faults = s.faults } };
}

impl<W: Write + Drop> StdSink<W> {
    /// A sink with no fault counted.
    pub fn new(writer: W) -> Self
        ensures { result ≡ record { held = W.contents writer; faults = 0 } }
    {
        StdSink {
            writer,
            faults: Faults::none(),
        }
    }

    /// How many calls failed.
    pub fn faults(&self) -> u64
        ensures { result ≡ self.now.faults }
    {
        self.faults.count()
    }

    // What a write of so many bytes says: a writer that takes none of some has failed.
    fn count(&mut self, written: io::Result<usize>, len: usize) -> Result<usize, Failed>
        ensures says { result ≡ taken len written }
        ensures held { self.new.held ≡ self.old.held }
        ensures cause { HasCause self.old.faults self.new.faults result }
    {
        let count = self.faults.pass(written)?;
        if count == 0 && len > 0 {
            return Err(self.faults.raise());
        }
        Ok(count)
    }
}

impl<W: Write + Drop> Sink for StdSink<W> {
    ghost state = { λ s. record { held = None; faults = s.faults } };

    /// What the writer took and passed on. Where it fails, it may have taken some bytes from the front.
    fn write(&mut self, bytes: &[u8]) -> Result<usize, Failed>
        ensures bound { IfOk result (λ n. n ≤ length bytes.now) }
        ensures some { IfOk result (λ n. 0 < length bytes.now → 0 < n) }
        ensures appended { IfOk result (λ n. Appends self.old.held self.new.held (take n bytes.now)) }
        ensures front { OnErr result ((n : ℕ) × Appends self.old.held self.new.held (take n bytes.now)) }
        ensures cause { HasCause self.old.faults self.new.faults result }
    {
        let written = write_through(&mut self.writer, bytes);
        self.count(written, bytes.len())
    }
}

// How many bytes the writer took and passed on.
fn write_through<W: Write>(writer: &mut W, bytes: &[u8]) -> io::Result<usize>
    ensures bound { IfOk result (λ count. count ≤ length bytes.now) }
    ensures appended { IfOk result (λ count. Appends (W.contents writer.old) (W.contents writer.new) (take count bytes.now)) }
    ensures front { OnErr result ((n : ℕ) × Appends (W.contents writer.old) (W.contents writer.new) (take n bytes.now)) }
{
    let count = writer.write(bytes)?;
    writer.flush()?;
    Ok(count)
}
