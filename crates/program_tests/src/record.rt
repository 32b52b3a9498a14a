//! A record in memory, which tells what is written.

ghost use Rattle.std.specs.Prelude.{◌≡◌, [], None};
ghost use Rattle.std.specs.Option.{option_map_or};
ghost use Rattle.slot_io.specs.Sinks.{SinkInMemory};

use live_run::{RecordFile, RecordNames};
use slot_core::Failed;
use slot_io::{MemorySink, Sink};
use std::alloc::Global;

/// A record in memory, once it is made, with room for this many bytes.
#[derive(Drop)]
pub struct MemoryRecord {
    alloc: Global,
    room: usize,
    rows: Option<MemorySink>,
    names: Option<RecordNames>,
    faults: u64,
}

impl MemoryRecord {
    /// No record yet.
    pub fn with_room(alloc: Global, room: usize) -> MemoryRecord
        ensures none { result.rows ≡ None }
        ensures unmade { result.names ≡ None }
        ensures faults { result.faults ≡ 0 }
    {
        MemoryRecord {
            alloc,
            room,
            rows: None,
            names: None,
            faults: 0,
        }
    }

    /// The bytes that are written, none where it was not made.
    pub fn bytes(&self) -> &[u8]
        ensures { result.now ≡ option_map_or (λ (s : SinkInMemory). s.written) self.now.rows [] }
    {
        match &self.rows {
            Some(rows) => rows.bytes(),
            None => b"",
        }
    }
}

impl RecordFile for MemoryRecord {
    ghost use Rattle.std.specs.Prelude.{option_map};
    ghost use Rattle.slot_io.specs.Sinks.{SinkInMemory};

    ghost written = { λ r. option_map (λ (s : SinkInMemory). s.written) r.rows };

    ghost faults = { λ r. r.faults };

    ghost made = { λ r. r.names };

    fn make(&mut self, names: RecordNames) -> Result<(), Failed> {
        match MemorySink::with_room(self.alloc, self.room) {
            Ok(rows) => {
                self.rows = Some(rows);
                self.names = Some(names);
                Ok(())
            }
            Err(_) => {
                self.faults = self.faults.saturating_add(1);
                Err(Failed)
            }
        }
    }

    fn put(&mut self, bytes: &[u8]) -> Result<(), Failed> {
        if bytes.is_empty() {
            return Ok(());
        }
        match &mut self.rows {
            Some(rows) => match rows.put(bytes) {
                Ok(()) => Ok(()),
                Err(Failed) => {
                    self.faults = self.faults.saturating_add(1);
                    Err(Failed)
                }
            },
            None => Ok(()),
        }
    }
}
