//! A system that lets no file be opened.
use crate::broken::Interrupted;
use std::alloc::Allocator;
use std::fs::{File, Metadata, OpenOptions};
use std::io;
use std::io::ErrorKind;
use std::rt::Files;

/// Every file is there, and none may be read.
#[derive(Drop)]
pub struct Denied;

fn refused<T>() -> io::Result<T> {
    Err(ErrorKind::PermissionDenied.into())
}

impl Files for Denied {
    type File = File;

    type Dir = Interrupted;

    fn open_file(&self, _how: &OpenOptions, _path: &str) -> io::Result<File> {
        refused()
    }

    fn open_dir(&self, _path: &str) -> io::Result<Interrupted> {
        refused()
    }

    fn metadata(&self, _path: &str) -> io::Result<Metadata> {
        refused()
    }

    fn symlink_metadata(&self, _path: &str) -> io::Result<Metadata> {
        refused()
    }

    fn copy(&self, _from: &str, _to: &str) -> io::Result<u64> {
        refused()
    }

    fn rename(&self, _from: &str, _to: &str) -> io::Result<()> {
        refused()
    }

    fn remove_file(&self, _path: &str) -> io::Result<()> {
        refused()
    }

    fn create_dir(&self, _path: &str) -> io::Result<()> {
        refused()
    }

    fn remove_dir(&self, _path: &str) -> io::Result<()> {
        refused()
    }

    fn remove_dir_all<B: Allocator>(&self, _alloc: B, _path: &str) -> io::Result<()> {
        refused()
    }
}
