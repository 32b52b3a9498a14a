//! A sink in memory, which tells what is written.

ghost use Rattle.std.specs.Prelude.{◌≡◌, ◌+◌, ◌-◌, ◌≤◌, List, [], ◌∷◌, ◌++◌, Some, IsOk, IfOk, OnOk, OnErr, is_err, length, take, vec_len, vec_capacity, min, nat_eq, if◌then◌else◌};
ghost use Rattle.std.specs.Io.KnownBytes.{Appends};
ghost use Rattle.slot_core.specs.Calls.Counts.{Rose};
ghost use Rattle.slot_io.specs.Faults.{one_more, is_next_call};
ghost use Rattle.slot_io.specs.Sinks.{AppendsPart, put_fails, written_after};

use crate::calls::{is_next_call, one_more};
use crate::sink::Sink;
use slot_core::{Failed, Memory};
use std::alloc::Global;
use std::marker::Model;

/// A sink in memory, with room for this many bytes. Puts can be made to fail.
#[derive(Drop)]
pub struct MemorySink {
    written: Vec<u8>,
    room: usize,
    failing: Vec<u32>,
    calls: u64,
    faults: u64,
}

impl Model for MemorySink {
    ghost use Rattle.std.specs.Prelude.{◌≤◌, vec_len, vec_capacity};
    ghost use Rattle.slot_io.specs.Sinks.{SinkInMemory};

    ghost Value = { SinkInMemory };

    ghost view = { λ s. record {
      written = s.written.items;
      room = s.room;
      failing = s.failing.items;
      calls = s.calls;
      faults = s.faults;
    } };

    ghost invariant = { λ s. (vec_len s.written ≤ s.room) × (s.room ≤ vec_capacity s.written) };
}

impl MemorySink {
    /// A sink with room for this many bytes, with nothing written and no put that fails.
    pub fn with_room(alloc: Global, room: usize) -> Result<MemorySink, Memory>
        ensures { IfOk result (λ sink. sink
            ≡ record { written = []; room = room; failing = []; calls = 0; faults = 0 }) }
    {
        Ok(MemorySink {
            written: Vec::with_capacity(alloc, room)?,
            room,
            failing: Vec::new(alloc),
            calls: 0,
            faults: 0,
        })
    }

    /// Makes the put call of this number, counted from 1, fail. After Memory nothing has changed.
    pub fn fail_put(&mut self, n: u32) -> Result<(), Memory>
        ensures ok { OnOk result
            (self.new ≡ record self.old { failing = self.old.failing ++ n ∷ [] }) }
        ensures err { OnErr result (self.new ≡ self.old) }
    {
        self.failing.push(n)?;
        Ok(())
    }

    /// The bytes that are written.
    pub fn bytes(&self) -> &[u8]
        ensures { result.now ≡ self.now.written }
    {
        self.written.as_slice()
    }

    /// How many of this many bytes the next put takes.
    fn taken(&self, count: usize) -> usize
        ensures taken { result ≡ (if is_next_call self.now.failing self.now.calls then 0
            else min count (self.now.room - length self.now.written)) }
        ensures fits { length self.now.written + result ≤ self.now.room }
    {
        if is_next_call(self.failing.as_slice(), self.calls) {
            0
        } else {
            count.min(self.room - self.written.len())
        }
    }

    /// Appends bytes for which there is room.
    fn append(&mut self, bytes: &[u8])
        requires { length self.old.written + length bytes.now ≤ self.old.room }
        ensures { self.new ≡ record self.old { written = self.old.written ++ bytes.now } }
    {
        let _appended = self.written.extend_from_slice(bytes);
    }
}

impl Sink for MemorySink {
    ghost written = { λ s. Some s.written };

    ghost faults = { λ s. s.faults };

    fn put(&mut self, bytes: &[u8]) -> Result<(), Failed>
        ensures ok { OnOk result
            (Appends (Some self.old.written) (Some self.new.written) bytes.now) }
        ensures part { OnErr result
            (AppendsPart (Some self.old.written) (Some self.new.written) bytes.now) }
        ensures counted { self.old.faults ≤ self.new.faults }
        ensures failed { OnErr result (Rose self.old.faults self.new.faults) }
        ensures empty { bytes.now ≡ [] → IsOk result }
        ensures unchanged { bytes.now ≡ [] → self.new ≡ self.old }
        ensures fails { is_err result ≡ put_fails self.old bytes.now }
        ensures written { self.new.written ≡ written_after self.old bytes.now }
        ensures one_fault { OnErr result (self.new.faults ≡ one_more self.old.faults) }
        ensures no_fault { OnOk result (self.new.faults ≡ self.old.faults) }
        ensures calls { self.new.calls
            ≡ (if nat_eq (length bytes.now) 0 then self.old.calls else one_more self.old.calls) }
        ensures room { self.new.room ≡ self.old.room }
        ensures failing { self.new.failing ≡ self.old.failing }
    {
        if bytes.is_empty() {
            return Ok(());
        }
        let taken = self.taken(bytes.len());
        self.append(&bytes[..taken]);
        self.calls = one_more(self.calls);
        if taken == bytes.len() {
            return Ok(());
        }
        self.faults = one_more(self.faults);
        Err(Failed)
    }
}
