//! A runtime, its files and a writer whose calls answer what a script says.

ghost use Rattle.std.specs.Prelude.{◌≡◌, false};

use std::alloc::{Allocator, Global};
use std::fs::{Metadata, OpenFile, OpenOptions};
use std::io::{self, Error, ErrorKind, Read, Seek, SeekFrom, Write};
use std::rt;

/// What one call answers.
#[derive(Clone, Copy)]
pub enum Turn {
    /// A read gives these bytes.
    Gives(&'static [u8]),
    /// A write takes this many bytes.
    Takes(usize),
    /// The call fails.
    Fails(ErrorKind),
}

use Turn::{Fails, Gives, Takes};

/// A file of these turns. After the last one it is at its end, and full.
#[derive(Drop)]
pub struct Script {
    turns: &'static [Turn],
    /// Whether a flush fails.
    pub flush_fails: bool,
    /// The bytes taken so far.
    pub taken: Vec<u8>,
}

impl Script {
    /// A file of which nothing was read or written.
    pub fn new(turns: &'static [Turn], taken: Vec<u8>) -> Script
        ensures turns { result.turns.now ≡ turns.now }
        ensures flushes { result.flush_fails ≡ false }
        ensures taken { result.taken ≡ taken }
    {
        Script {
            turns,
            flush_fails: false,
            taken,
        }
    }

    /// The next turn.
    fn turn(&mut self) -> Option<Turn> {
        let (turn, rest) = self.turns.split_first()?;
        self.turns = rest;
        Some(*turn)
    }
}

impl Read for Script {
    fn read(&mut self, buf: &mut [u8]) -> io::Result<usize> {
        match self.turn() {
            Some(Gives(bytes)) => {
                let count = bytes.len().min(buf.len());
                buf[..count].copy_from_slice(&bytes[..count]);
                Ok(count)
            }
            Some(Fails(kind)) => Err(Error::from(kind)),
            Some(Takes(_)) | None => Ok(0),
        }
    }
}

impl Write for Script {
    fn write(&mut self, buf: &[u8]) -> io::Result<usize> {
        match self.turn() {
            Some(Takes(most)) => {
                let count = most.min(buf.len());
                self.taken.extend_from_slice(&buf[..count])?;
                Ok(count)
            }
            Some(Fails(kind)) => Err(Error::from(kind)),
            Some(Gives(_)) | None => Ok(0),
        }
    }

    fn flush(&mut self) -> io::Result<()> {
        if self.flush_fails {
            return Err(Error::from(ErrorKind::StorageFull));
        }
        Ok(())
    }
}

/// What no test asks for.
fn unsupported<T>() -> io::Result<T> {
    Err(Error::from(ErrorKind::Unsupported))
}

impl Seek for Script {
    fn seek(&mut self, _to: SeekFrom) -> io::Result<u64> {
        unsupported()
    }
}

impl OpenFile for Script {
    fn metadata(&self) -> io::Result<Metadata> {
        unsupported()
    }

    fn set_len(&self, _size: u64) -> io::Result<()> {
        unsupported()
    }

    fn sync_all(&self) -> io::Result<()> {
        unsupported()
    }

    fn sync_data(&self) -> io::Result<()> {
        unsupported()
    }
}

/// A runtime that opens one file, or fails to.
#[derive(Drop)]
pub struct Disk {
    pub alloc: Global,
    pub opened: Result<&'static [Turn], ErrorKind>,
}

impl rt::Files for Disk {
    type File = Script;

    type Dir = Script;

    fn open_file(&self, _how: &OpenOptions, _path: &str) -> io::Result<Script> {
        match self.opened {
            Ok(turns) => Ok(Script::new(turns, Vec::new(self.alloc))),
            Err(kind) => Err(Error::from(kind)),
        }
    }

    fn open_dir(&self, _path: &str) -> io::Result<Script> {
        unsupported()
    }

    fn metadata(&self, _path: &str) -> io::Result<Metadata> {
        unsupported()
    }

    fn symlink_metadata(&self, _path: &str) -> io::Result<Metadata> {
        unsupported()
    }

    fn copy(&self, _from: &str, _to: &str) -> io::Result<u64> {
        unsupported()
    }

    fn rename(&self, _from: &str, _to: &str) -> io::Result<()> {
        unsupported()
    }

    fn remove_file(&self, _path: &str) -> io::Result<()> {
        unsupported()
    }

    fn create_dir(&self, _path: &str) -> io::Result<()> {
        unsupported()
    }

    fn remove_dir(&self, _path: &str) -> io::Result<()> {
        unsupported()
    }

    fn remove_dir_all<B: Allocator>(&self, _alloc: B, _path: &str) -> io::Result<()> {
        unsupported()
    }
}
