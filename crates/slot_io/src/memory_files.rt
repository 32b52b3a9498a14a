//! Files in memory, which tell what they hold.

ghost use Rattle.std.specs.Prelude.{◌≡◌, ◌≢◌, ℕ, ◌+◌, ◌≤◌, List, [], ◌∷◌, ◌++◌, take, Option, Some, None, IfSome, IfOk, MatchOption, is_none, IsErr, IfErr, OnOk, OnErr, IsTrue, vec_len, vec_items, string_bytes, option_map};
ghost use Rattle.std.specs.Ordering.{nat_cmp, eq_by_cmp};
ghost use Rattle.std.specs.Cmp.Lexicographic.{slice_cmp};
ghost use Rattle.std.specs.FinMap.{insert, empty, get, from_entries};
ghost use Rattle.slot_core.specs.Calls.Counts.{Rose};
ghost use Rattle.slot_io.specs.Faults.{one_more};
ghost use Rattle.slot_io.specs.Files.{Held, first_bytes, read_fails};

use crate::calls::{is_next_call, one_more};
use crate::files::{Files, ReadFault};
use slot_core::{Memory, READ_LIMIT};
use std::alloc::Global;
use std::collections::VecDeque;
use std::marker::Model;

/// A file in memory: its name and its bytes.
#[derive(Drop)]
struct Entry {
    name: String,
    bytes: Vec<u8>,
}

impl Model for Entry {
    ghost use Rattle.std.specs.Prelude.{ℕ, List, string_bytes};

    ghost Value = { List ℕ × List ℕ };

    ghost view = { λ e. (string_bytes e.name, e.bytes.items) };
}

/// Files in memory. The newest entry of a name counts. Reads can be made to fail.
#[derive(Drop)]
pub struct MemoryFiles {
    alloc: Global,
    /// The newest first.
    entries: VecDeque<Entry>,
    failing: Vec<u32>,
    calls: u64,
    faults: u64,
    blamed: Option<String>,
    /// The name of the last read that gave bytes.
    given: Option<String>,
    /// How many it gave.
    length: usize,
}

impl Model for MemoryFiles {
    ghost use Rattle.std.specs.Prelude.{string_bytes, option_map};
    ghost use Rattle.std.specs.FinMap.{from_entries};
    ghost use Rattle.slot_io.specs.Files.{FilesInMemory, files_code};

    ghost Value = { FilesInMemory };

    ghost coded = { files_code };

    ghost view = { λ f. record {
      held = from_entries f.entries.items;
      failing = f.failing.items;
      calls = f.calls;
      faults = f.faults;
      blamed = option_map string_bytes f.blamed;
      given = option_map (λ name. (string_bytes name, f.length)) f.given;
    } };
}

impl MemoryFiles {
    /// No files, and no read that fails. It takes no memory.
    pub fn empty(alloc: Global) -> MemoryFiles
        ensures { result ≡ record {
          held = empty;
          failing = [];
          calls = 0;
          faults = 0;
          blamed = None;
          given = None;
        } }
    {
        MemoryFiles {
            alloc,
            entries: VecDeque::new(alloc),
            failing: Vec::new(alloc),
            calls: 0,
            faults: 0,
            blamed: None,
            given: None,
            length: 0,
        }
    }

    /// Sets the bytes under a name, in place of those of an earlier call. After Memory nothing has
    /// changed.
    pub fn add(&mut self, name: &str, bytes: &[u8]) -> Result<(), Memory>
        ensures ok { OnOk result
            (self.new ≡ record self.old { held = insert self.old.held name.now bytes.now }) }
        ensures err { OnErr result (self.new ≡ self.old) }
    {
        let entry = entry_of(self.alloc, name, bytes)?;
        self.entries.push_front(entry)?;
        Ok(())
    }

    /// Makes the read call of this number, counted from 1, fail. After Memory nothing has changed.
    pub fn fail_read(&mut self, n: u32) -> Result<(), Memory>
        ensures ok { OnOk result
            (self.new ≡ record self.old { failing = self.old.failing ++ n ∷ [] }) }
        ensures err { OnErr result (self.new ≡ self.old) }
    {
        self.failing.push(n)?;
        Ok(())
    }

    /// The bytes that this read gives, or None where it fails.
    fn bytes_read(&self, alloc: Global, name: &str, limit: usize) -> Result<Option<Vec<u8>>, Memory>
        requires { limit ≤ READ_LIMIT }
        ensures fails { IfOk result (λ given. is_none given ≡ read_fails self.now name.now) }
        ensures first { IfOk result (λ given. IfSome given
            (λ bytes. first_bytes self.now.held name.now limit ≡ Some bytes.items)) }
    {
        if is_next_call(self.failing.as_slice(), self.calls) {
            return Ok(None);
        }
        match find(&self.entries, name) {
            Some(bytes) => Ok(Some(first_bytes(alloc, bytes, limit)?)),
            None => Ok(None),
        }
    }

    /// Keeps the name and the length of bytes that a read gives. After Memory nothing has changed.
    fn give(&mut self, alloc: Global, name: &str, bytes: Vec<u8>) -> Result<Vec<u8>, ReadFault>
        ensures ok { OnOk result (self.new
            ≡ record self.old { given = Some (name.now, vec_len bytes) }) }
        ensures same { IfOk result (λ given. given ≡ bytes) }
        ensures err { OnErr result (self.new ≡ self.old) }
        ensures memory { IfErr result (λ fault. fault ≡ ReadFault.Memory) }
    {
        match String::from_str(alloc, name) {
            Ok(copy) => {
                self.given = Some(copy);
                self.length = bytes.len();
                Ok(bytes)
            }
            Err(_) => Err(ReadFault::Memory),
        }
    }

    /// Counts a read that failed, and keeps the name. After Memory nothing has changed.
    fn blame(&mut self, alloc: Global, name: &str) -> ReadFault
        ensures failed { result ≡ ReadFault.Failed → self.new ≡ record self.old {
          faults = one_more self.old.faults;
          blamed = Some name.now;
        } }
        ensures memory { result ≡ ReadFault.Memory → self.new ≡ self.old }
        ensures counted { self.old.faults ≤ self.new.faults }
    {
        match String::from_str(alloc, name) {
            Ok(copy) => {
                self.faults = one_more(self.faults);
                self.blamed = Some(copy);
                ReadFault::Failed
            }
            Err(_) => ReadFault::Memory,
        }
    }
}

impl Files for MemoryFiles {
    ghost held = { λ f. Some f.held };

    ghost faults = { λ f. f.faults };

    ghost blamed = { λ f. f.blamed };

    ghost given = { λ f. f.given };

    fn read(&mut self, alloc: Global, name: &str, limit: usize) -> Result<Vec<u8>, ReadFault>
        requires { limit ≤ READ_LIMIT }
        ensures short { IfOk result (λ bytes. vec_len bytes ≤ limit + 1) }
        ensures first { IfOk result
            (λ bytes. first_bytes self.old.held name.now limit ≡ Some bytes.items) }
        ensures keeps { self.new.held ≡ self.old.held }
        ensures counted { self.old.faults ≤ self.new.faults }
        ensures failed { result ≡ Err ReadFault.Failed → Rose self.old.faults self.new.faults }
        ensures named { result ≡ Err ReadFault.Failed → self.new.blamed ≡ Some name.now }
        ensures no_fault { result ≢ Err ReadFault.Failed → self.new.faults ≡ self.old.faults }
        ensures no_blame { result ≢ Err ReadFault.Failed → self.new.blamed ≡ self.old.blamed }
        ensures gives { IfOk result (λ bytes. self.new.given ≡ Some (name.now, vec_len bytes)) }
        ensures gives_none { OnErr result (self.new.given ≡ self.old.given) }
        ensures cause { result ≡ Err ReadFault.Failed → IsTrue (read_fails self.old name.now) }
        ensures refused { IsTrue (read_fails self.old name.now) → IsErr result }
        ensures one_fault { result ≡ Err ReadFault.Failed
            → self.new.faults ≡ one_more self.old.faults }
        ensures calls { self.new.calls ≡ one_more self.old.calls }
        ensures failing { self.new.failing ≡ self.old.failing }
    {
        let given = self.bytes_read(alloc, name, limit);
        self.calls = one_more(self.calls);
        match given {
            Ok(Some(bytes)) => self.give(alloc, name, bytes),
            Ok(None) => Err(self.blame(alloc, name)),
            Err(Memory) => Err(ReadFault::Memory),
        }
    }
}

/// An entry with copies of the name and the bytes.
fn entry_of(alloc: Global, name: &str, bytes: &[u8]) -> Result<Entry, Memory>
    ensures { IfOk result (λ entry. entry ≡ (name.now, bytes.now)) }
{
    let name = String::from_str(alloc, name)?;
    let bytes = Vec::from_slice(alloc, bytes)?;
    Ok(Entry { name, bytes })
}

/// The bytes of the first entry of a name.
fn find<'e>(entries: &'e VecDeque<Entry>, name: &str) -> Option<&'e [u8]>
    ensures { let held : Held = from_entries entries.now.items in
        MatchOption result
        (get held name.now ≡ None)
        (λ bytes. get held name.now ≡ Some bytes.now) }
{
    for entry in entries {
        if has_name(entry, name) {
            return Some(bytes_of(entry));
        }
    }
    None
}

/// Whether the entry has this name.
fn has_name(entry: &Entry, name: &str) -> bool
    ensures { result ≡ eq_by_cmp (slice_cmp nat_cmp) name.now entry.now.0 }
{
    name == entry.name.as_str()
}

/// The bytes of an entry.
fn bytes_of(entry: &Entry) -> &[u8]
    ensures { result.now ≡ entry.now.1 }
{
    entry.bytes.as_slice()
}

/// A copy of the first bytes, at most one more than the limit.
fn first_bytes(alloc: Global, bytes: &[u8], limit: usize) -> Result<Vec<u8>, Memory>
    requires { limit ≤ READ_LIMIT }
    ensures { IfOk result (λ first. first.items ≡ take (limit + 1) bytes.now) }
{
    let count = bytes.len().min(limit + 1);
    let copy = Vec::from_slice(alloc, &bytes[..count])?;
    Ok(copy)
}
