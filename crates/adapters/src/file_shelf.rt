//! Real files as a shelf.
ghost use Rattle.std.specs.Prelude.{◌≡◌, ◌≤◌, [], max, length, Some, None, OnOk, OnErr, IfOk};
ghost use Rattle.std.specs.Io.KnownBytes.{ReadConsumes};
ghost use Rattle.enum_base.specs.Causes.{HasCause, many_more};
ghost use Rattle.adapters.specs.Kept.{left_after};
ghost use Rattle.adapters.specs.Saying.{found, missing, passed_on};

use crate::faults::Faults;
use enum_base::{Failed, Given, Shelf};
use std::io::{ErrorKind, Read};
use std::marker::Model;
use std::rt::Files;
use std::{fs, io};

/// Files by their paths. As a shelf it tells nothing of what they hold. Contracts see what is left of the file at hand,
/// where the system tells it, how many bytes were given, and the count of faults, which rises at each error.
#[derive(Drop)]
pub struct FileShelf<'a, R: Files> {
    runtime: &'a R,
    file: Option<R::File>,
    given: Given,
    faults: Faults,
}

impl<'a, R: Files> Model for FileShelf<'a, R> {
    ghost use Rattle.adapters.specs.Kept.{FilesKept, left_of};

    ghost Value = { FilesKept };

    ghost view = { λ s. record { left = left_of R.File.remaining s.file; given = s.given.now; most_given = s.given.most; faults = s.faults } };
}

impl<'a, R: Files> FileShelf<'a, R> {
    /// A shelf with no file open, nothing given and no fault counted.
    pub fn new(runtime: &'a R) -> Self
        ensures { result ≡ record { left = Some []; given = 0; most_given = 0; faults = 0 } }
    {
        FileShelf {
            runtime,
            file: None,
            given: Given::none(),
            faults: Faults::none(),
        }
    }

    /// How many calls failed.
    pub fn faults(&self) -> u64
        ensures { result ≡ self.now.faults }
    {
        self.faults.count()
    }

    // What is read of the open file into the buffer: nothing where none is open, and an error where it is a folder.
    fn read_open(&mut self, buf: &mut [u8]) -> io::Result<usize>
        ensures kept { self.new ≡ record self.old { left = self.new.left } }
        ensures bound { IfOk result (λ n. n ≤ length buf.new) }
        ensures bytes { ReadConsumes self.old.left self.new.left result buf.new }
    {
        match &mut self.file {
            Some(file) => file.read(buf),
            None => Ok(0),
        }
    }

    // What the opening of a file says: it is there, it is not, or the opening failed.
    fn keep(&mut self, opened: io::Result<R::File>) -> Result<bool, Failed>
        ensures says { result ≡ found opened }
        ensures left { self.new.left ≡ left_after R.File.remaining opened }
        ensures begins { OnOk result (self.new.given ≡ 0) }
        ensures uncounted { OnErr result (self.new.given ≡ self.old.given) }
        ensures greatest { self.new.most_given ≡ self.old.most_given }
        ensures cause { HasCause self.old.faults self.new.faults result }
    {
        self.file = None;
        let found = match opened {
            Ok(file) => {
                self.file = Some(file);
                true
            }
            Err(error) => self.missing(error.kind())?,
        };
        self.given.begin();
        Ok(found)
    }

    // Whether an opening that failed says that there is no such file.
    fn missing(&mut self, kind: ErrorKind) -> Result<bool, Failed>
        ensures says { result ≡ missing kind }
        ensures left { self.new.left ≡ self.old.left }
        ensures given { self.new.given ≡ self.old.given }
        ensures greatest { self.new.most_given ≡ self.old.most_given }
        ensures cause { HasCause self.old.faults self.new.faults result }
    {
        match kind {
            ErrorKind::NotFound => Ok(false),
            _ => Err(self.faults.raise()),
        }
    }

    // What a read says: each error is a fault, and so no end.
    fn count(&mut self, read: io::Result<usize>) -> Result<usize, Failed>
        ensures says { result ≡ passed_on read }
        ensures left { self.new.left ≡ self.old.left }
        ensures counts { IfOk result (λ n. self.new.given ≡ many_more self.old.given n) }
        ensures greatest { OnOk result (self.new.most_given ≡ max self.old.most_given self.new.given) }
        ensures uncounted { OnErr result ((self.new.given ≡ self.old.given) × (self.new.most_given ≡ self.old.most_given)) }
        ensures cause { HasCause self.old.faults self.new.faults result }
    {
        let count = self.faults.pass(read)?;
        self.given.add(count);
        Ok(count)
    }
}

impl<R: Files> Shelf for FileShelf<'_, R> {
    ghost state = { λ s. record { files = None; left = None; given = s.given; most_given = s.most_given; faults = s.faults } };

    fn fetch(&mut self, name: &str) -> Result<bool, Failed> {
        let opened = fs::open(self.runtime, name);
        self.keep(opened)
    }

    fn read(&mut self, buf: &mut [u8]) -> Result<usize, Failed> {
        let read = self.read_open(buf);
        self.count(read)
    }
}
