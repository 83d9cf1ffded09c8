//! A reader and a writer that fail.
use std::io;
use std::io::{ErrorKind, Read, Write};

/// A reader whose calls are interrupted.
#[derive(Drop)]
pub struct Interrupted;

impl Read for Interrupted {
    fn read(&mut self, _buf: &mut [u8]) -> io::Result<usize> {
        Err(ErrorKind::Interrupted.into())
    }
}

/// A writer that takes all, and cannot pass it on.
#[derive(Drop)]
pub struct Stuck;

impl Write for Stuck {
    fn write(&mut self, bytes: &[u8]) -> io::Result<usize> {
        Ok(bytes.len())
    }

    fn flush(&mut self) -> io::Result<()> {
        Err(ErrorKind::BrokenPipe.into())
    }
}
