//! Standard input, or any other reader, as a source.
ghost use Rattle.std.specs.Prelude.{◌≡◌, ◌≤◌, length, None, IfOk};
ghost use Rattle.std.specs.Io.KnownBytes.{ReadConsumes};
ghost use Rattle.enum_base.specs.Causes.{HasCause};

use crate::faults::Faults;
use enum_base::{Failed, Source};
use std::io::Read;
use std::marker::Model;

/// A reader. As a source it tells nothing of what it gives. Contracts see what the reader has left, where it is one whose
/// bytes are known, and the count of faults, which rises at each error.
#[derive(Drop)]
pub struct StdSource<R: Read + Drop> {
    reader: R,
    faults: Faults,
}

impl<R: Read + Drop> Model for StdSource<R> {
    ghost use Rattle.adapters.specs.Kept.{SourceKept};

    ghost Value = { SourceKept };

    ghost view = { λ s. record { left = R.remaining s.reader; faults = s.faults } };
}

impl<R: Read + Drop> StdSource<R> {
    /// A source with no fault counted.
    pub fn new(reader: R) -> Self
        ensures { result ≡ record { left = R.remaining reader; faults = 0 } }
    {
        StdSource {
            reader,
            faults: Faults::none(),
        }
    }

    /// How many calls failed.
    pub fn faults(&self) -> u64
        ensures { result ≡ self.now.faults }
    {
        self.faults.count()
    }
}

impl<R: Read + Drop> Source for StdSource<R> {
    ghost state = { λ s. record { left = None; faults = s.faults } };

    /// What the reader gives; where it fails, it has lost nothing.
    fn read(&mut self, buf: &mut [u8]) -> Result<usize, Failed>
        ensures bound { IfOk result (λ n. n ≤ length buf.new) }
        ensures bytes { ReadConsumes self.old.left self.new.left result buf.new }
        ensures cause { HasCause self.old.faults self.new.faults result }
    {
        let read = self.reader.read(buf);
        self.faults.pass(read)
    }
}
