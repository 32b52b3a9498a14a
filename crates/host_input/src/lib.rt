//! Standard input of the host, as the one file of an object of its own.
#![tactic(auto)]

ghost use Rattle.std.specs.Prelude.{◌≡◌, ◌↔◌, ◌≤◌, IfOk, None, vec_len};
ghost use Rattle.std.specs.IoError.{error_kind};

use slot_io::{Files, ReadFault};
use std::alloc::Global;
use std::io::{Error, ErrorKind, Read};

/// A reader of the host, which is read whole up to a limit, once and under any name; a later read
/// gives nothing. It tells nothing of what it holds.
#[derive(Drop)]
pub struct HostInput<I> {
    reader: Option<I>,
    faults: u64,
    blamed: Option<String>,
    /// The name of the last read that gave bytes.
    given: Option<String>,
    /// How many it gave.
    length: usize,
}

impl<I> HostInput<I> {
    /// The input of this reader, of which no read has failed.
    pub fn new(reader: I) -> HostInput<I>
        ensures faults { result.faults ≡ 0 }
        ensures blamed { result.blamed ≡ None }
    {
        HostInput {
            reader: Some(reader),
            faults: 0,
            blamed: None,
            given: None,
            length: 0,
        }
    }
}

impl<I: Read + Drop> Files for HostInput<I> {
    ghost use Rattle.std.specs.Prelude.{None, string_bytes, option_map};

    ghost held = { λ _. None };

    ghost faults = { λ f. f.faults };

    ghost blamed = { λ f. option_map string_bytes f.blamed };

    ghost given = { λ f. option_map (λ name. (string_bytes name, f.length)) f.given };

    fn read(&mut self, alloc: Global, name: &str, limit: usize) -> Result<Vec<u8>, ReadFault> {
        let copy = String::from_str(alloc, name)?;
        match read_once(self.reader.take(), alloc, limit + 1) {
            Ok(bytes) => {
                self.given = Some(copy);
                self.length = bytes.len();
                Ok(bytes)
            }
            Err(ReadFault::Memory) => Err(ReadFault::Memory),
            Err(ReadFault::Failed) => {
                self.faults = self.faults.saturating_add(1);
                self.blamed = Some(copy);
                Err(ReadFault::Failed)
            }
        }
    }
}

/// The first bytes of the reader, if it is still there, at most so many.
fn read_once<I: Read + Drop>(
    reader: Option<I>,
    alloc: Global,
    most: usize,
) -> Result<Vec<u8>, ReadFault>
    ensures { IfOk result (λ bytes. vec_len bytes ≤ most) }
{
    match reader {
        Some(reader) => read_front(reader, alloc, most),
        None => Ok(Vec::new(alloc)),
    }
}

/// The first bytes of a reader, at most so many. It goes on after a short read, and tries again
/// where a signal interrupts one.
fn read_front<I: Read + Drop>(reader: I, alloc: Global, most: usize) -> Result<Vec<u8>, ReadFault>
    ensures { IfOk result (λ bytes. vec_len bytes ≤ most) }
{
    let mut bytes = Vec::new(alloc);
    match reader.take(most as u64).read_to_end(&mut bytes) {
        Ok(_) => {
            bytes.truncate(most);
            Ok(bytes)
        }
        Err(error) => Err(fault_of(&error)),
    }
}

/// Want of memory is told from every other error.
fn fault_of(error: &Error) -> ReadFault
    ensures { (result ≡ ReadFault.Memory) ↔ (error_kind error.now ≡ ErrorKind.OutOfMemory) }
{
    if error.kind() == ErrorKind::OutOfMemory {
        ReadFault::Memory
    } else {
        ReadFault::Failed
    }
}
