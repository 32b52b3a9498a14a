//! Files and sinks of the host: the trusted edge. Files tell nothing of what they hold, and a sink
//! what its writer tells, which for standard output is nothing.

ghost use Rattle.std.specs.Prelude.{◌≡◌, ◌↔◌, ℕ, ◌≤◌, None, IfSome, IfOk, OnOk, OnErr, take, vec_len, option_map, string_bytes};
ghost use Rattle.std.specs.Io.KnownBytes.{Appends};
ghost use Rattle.std.specs.IoError.{error_kind};
ghost use Rattle.slot_io.specs.Sinks.{AppendsPart};

use crate::calls::one_more;
use crate::files::{Files, ReadFault};
use crate::sink::Sink;
use slot_core::Failed;
use std::alloc::Global;
use std::io::{Error, ErrorKind, Read, Write};
use std::{fs, rt};

/// The files of a runtime.
#[derive(Drop)]
pub struct HostFiles<R> {
    rt: R,
    faults: u64,
    blamed: Option<String>,
    /// The name of the last read that gave bytes.
    given: Option<String>,
    /// How many it gave.
    length: usize,
}

impl<R> HostFiles<R> {
    /// The files of this runtime, of which no read has failed.
    pub fn new(rt: R) -> HostFiles<R>
        ensures faults { result.faults ≡ 0 }
        ensures blamed { result.blamed ≡ None }
    {
        HostFiles {
            rt,
            faults: 0,
            blamed: None,
            given: None,
            length: 0,
        }
    }
}

impl<R: rt::Files> Files for HostFiles<R> {
    ghost held = { λ _. None };

    ghost faults = { λ f. f.faults };

    ghost blamed = { λ f. option_map string_bytes f.blamed };

    ghost given = { λ f. option_map (λ name. (string_bytes name, f.length)) f.given };

    fn read(&mut self, alloc: Global, name: &str, limit: usize) -> Result<Vec<u8>, ReadFault> {
        let copy = String::from_str(alloc, name)?;
        match read_file(&self.rt, alloc, name, limit + 1) {
            Ok(bytes) => {
                self.given = Some(copy);
                self.length = bytes.len();
                Ok(bytes)
            }
            Err(ReadFault::Memory) => Err(ReadFault::Memory),
            Err(ReadFault::Failed) => {
                self.faults = one_more(self.faults);
                self.blamed = Some(copy);
                Err(ReadFault::Failed)
            }
        }
    }
}

/// The first bytes of a file, at most this many.
fn read_file<R: rt::Files>(
    rt: &R,
    alloc: Global,
    name: &str,
    most: usize,
) -> Result<Vec<u8>, ReadFault>
    ensures { IfOk result (λ bytes. vec_len bytes ≤ most) }
{
    match fs::open(rt, name) {
        Ok(file) => read_front(file, alloc, most),
        Err(error) => Err(fault_of(&error)),
    }
}

/// The first bytes of a reader, at most this many. As the standard library's own loop does, it goes
/// on after a short read, and tries again where a signal interrupts one.
fn read_front<F: Read + Drop>(reader: F, alloc: Global, most: usize) -> Result<Vec<u8>, ReadFault>
    ensures short { IfOk result (λ bytes. vec_len bytes ≤ most) }
    ensures first { IfOk result (λ bytes. IfSome (F.remaining reader)
        (λ all. bytes.items ≡ take most all)) }
{
    let mut bytes = Vec::new(alloc);
    match reader.take(most as u64).read_to_end(&mut bytes) {
        Ok(_) => {
            bytes.truncate(most);
            Ok(bytes)
        }
        Err(error) => Err(fault_of(&error)),
    }
}

/// Want of memory is told from every other error.
fn fault_of(error: &Error) -> ReadFault
    ensures { (result ≡ ReadFault.Memory) ↔ (error_kind error.now ≡ ErrorKind.OutOfMemory) }
{
    if error.kind() == ErrorKind::OutOfMemory {
        ReadFault::Memory
    } else {
        ReadFault::Failed
    }
}

/// A writer of the host.
#[derive(Drop)]
pub struct HostSink<W> {
    writer: W,
    faults: u64,
}

impl<W> HostSink<W> {
    /// A sink over this writer, of which no put has failed.
    pub fn new(writer: W) -> HostSink<W>
        ensures { result.faults ≡ 0 }
    {
        HostSink { writer, faults: 0 }
    }
}

impl<W: Write> Sink for HostSink<W> {
    ghost written = { λ s. W.contents s.writer };

    ghost faults = { λ s. s.faults };

    fn put(&mut self, bytes: &[u8]) -> Result<(), Failed> {
        if bytes.is_empty() {
            return Ok(());
        }
        match write_whole(&mut self.writer, bytes) {
            Ok(()) => Ok(()),
            Err(Failed) => {
                self.faults = one_more(self.faults);
                Err(Failed)
            }
        }
    }
}

/// Writes all the bytes, and then flushes. It fails at any error, and where a write takes nothing.
fn write_whole<W: Write>(writer: &mut W, bytes: &[u8]) -> Result<(), Failed>
    ensures whole { OnOk result
        (Appends (W.contents writer.old) (W.contents writer.new) bytes.now) }
    ensures part { OnErr result
        (AppendsPart (W.contents writer.old) (W.contents writer.new) bytes.now) }
{
    let mut rest = bytes;
    while !rest.is_empty() {
        let taken = match writer.write(rest) {
            Ok(taken) => taken,
            Err(_) => return Err(Failed),
        };
        if taken == 0 {
            return Err(Failed);
        }
        rest = &rest[taken..];
    }
    match writer.flush() {
        Ok(()) => Ok(()),
        Err(_) => Err(Failed),
    }
}
