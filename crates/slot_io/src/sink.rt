//! Sinks that take bytes in pieces.

ghost use Rattle.std.specs.Prelude.{◌≡◌, ℕ, ◌≤◌, List, [], Option, IsOk, OnOk, OnErr};
ghost use Rattle.std.specs.Io.KnownBytes.{Appends};
ghost use Rattle.slot_core.specs.Calls.Counts.{Rose};
ghost use Rattle.slot_io.specs.Sinks.{AppendsPart};

use slot_core::Failed;

/// A sink of bytes. One that tells what was written goes on telling.
pub trait Sink {
    /// The bytes written so far, where they are told.
    ghost written: { Self → Option (List ℕ) };

    /// How many puts failed, up to the last value of a `u64`.
    ghost faults: { Self → ℕ };

    /// Writes the bytes. After Failed a part of them from the front is written. A put of no bytes
    /// answers Ok and changes nothing.
    fn put(&mut self, bytes: &[u8]) -> Result<(), Failed>
        ensures ok { OnOk result (Appends (written self.old) (written self.new) bytes.now) }
        ensures part { OnErr result (AppendsPart (written self.old) (written self.new) bytes.now) }
        ensures counted { faults self.old ≤ faults self.new }
        ensures failed { OnErr result (Rose (faults self.old) (faults self.new)) }
        ensures empty { bytes.now ≡ [] → IsOk result }
        ensures unchanged { bytes.now ≡ [] → self.new ≡ self.old };
}
