//! Calls of objects of the outside, and what they answer.
use adapters::{FileShelf, StdSink, StdSource};
use enum_base::{Failed, Shelf, Sink, Source};
use std::alloc::{AllocError, Global};
use std::io::{Read, Write};
use std::rt::Files;

/// A fetch of the file of that name and three reads of at most four bytes, and the count of faults.
pub fn fetch<R: Files>(
    alloc: Global,
    shelf: &mut FileShelf<'_, R>,
    name: &str,
) -> Result<String, AllocError> {
    let found = match shelf.fetch(name) {
        Ok(true) => "found",
        Ok(false) => "none",
        Err(_) => "failed",
    };
    let first = shelf_read(alloc, shelf)?;
    let second = shelf_read(alloc, shelf)?;
    let third = shelf_read(alloc, shelf)?;
    let faults = shelf.faults();
    format!(in alloc; "{found}; {first}; {second}; {third}; {faults} faults")
}

fn shelf_read<S: Shelf>(alloc: Global, shelf: &mut S) -> Result<String, AllocError> {
    let mut buf = [0; 4];
    let read = shelf.read(&mut buf);
    read_text(alloc, read, &buf)
}

/// Three reads of at most four bytes, and the count of faults.
pub fn read_thrice<R: Read + Drop>(
    alloc: Global,
    source: &mut StdSource<R>,
) -> Result<String, AllocError> {
    let first = source_read(alloc, source)?;
    let second = source_read(alloc, source)?;
    let third = source_read(alloc, source)?;
    let faults = source.faults();
    format!(in alloc; "{first}; {second}; {third}; {faults} faults")
}

fn source_read<I: Source>(alloc: Global, source: &mut I) -> Result<String, AllocError> {
    let mut buf = [0; 4];
    let read = source.read(&mut buf);
    read_text(alloc, read, &buf)
}

// How many bytes were read, and these bytes.
fn read_text(
    alloc: Global,
    read: Result<usize, Failed>,
    buf: &[u8; 4],
) -> Result<String, AllocError> {
    let Ok(count) = read else {
        return format!(in alloc; "failed");
    };
    let bytes = String::from_utf8_lossy(alloc, &buf[..count.min(4)])?;
    format!(in alloc; "{count} {bytes}")
}

/// Two writes of the bytes and one of nothing, and the count of faults.
pub fn write_thrice<W: Write + Drop>(
    alloc: Global,
    sink: &mut StdSink<W>,
    bytes: &str,
) -> Result<String, AllocError> {
    let first = write_once(alloc, sink, bytes)?;
    let second = write_once(alloc, sink, bytes)?;
    let third = write_once(alloc, sink, "")?;
    let faults = sink.faults();
    format!(in alloc; "{first}; {second}; {third}; {faults} faults")
}

// How many bytes were taken.
fn write_once<K: Sink>(alloc: Global, sink: &mut K, bytes: &str) -> Result<String, AllocError> {
    match sink.write(bytes.as_bytes()) {
        Ok(count) => format!(in alloc; "{count}"),
        Err(_) => format!(in alloc; "failed"),
    }
}
