//! The lines of a reader.

ghost use Rattle.std.specs.Prelude.{◌≡◌, ℕ, ◌≤◌, [], OnErr, IfOk, IfSome, Option, List};
ghost use Rattle.std.specs.Io.KnownBytes.{Keeps};
ghost use Rattle.live_lines.specs.Lines.{ended, extended, extended_line, heard, GivesByte, GivesOne, LosesFront};

use crate::HEARD_LIMIT;
use crate::source::{Given, LineSource};
use arrayvec::ArrayVec;
use slot_core::Failed;
use std::io::{ErrorKind, Read};

/// The lines of a reader, each up to a line feed, or the end after which there is none. It takes no
/// memory, and reads no further than the line feed.
#[derive(Drop)]
pub struct InputLines<R> {
    reader: R,
    line: ArrayVec<u8, HEARD_LIMIT>,
    faults: u64,
}

impl<R> InputLines<R> {
    /// The lines of this reader, of which none is given.
    pub fn new(reader: R) -> InputLines<R>
        ensures reader { result.reader ≡ reader }
        ensures faults { result.faults ≡ 0 }
    {
        InputLines {
            reader,
            line: ArrayVec::new(),
            faults: 0,
        }
    }
}

impl<R: Read> LineSource for InputLines<R> {
    ghost use Rattle.std.specs.Prelude.{refl};
    ghost use Rattle.live_lines.specs.Lines.{Gives, LosesFront};
    ghost use Rattle.live_lines.specs.LineLaws.{gives-more};

    // The bytes that the reader has left, where they are known, lose those of the lines.
    ghost gave = { λ a b hs. Gives (R.remaining a.reader) (R.remaining b.reader) hs };

    // They lose a front part of the line at hand where a read fails.
    ghost broke = { λ a b. LosesFront (R.remaining a.reader) (R.remaining b.reader) };

    ghost last = { λ s. s.line.items };

    ghost faults = { λ s. s.faults };

    fn next(&mut self) -> Result<Given, Failed> {
        match read_line(&mut self.reader, &mut self.line) {
            Ok(given) => Ok(given),
            Err(Failed) => {
                self.faults = self.faults.saturating_add(1);
                Err(Failed)
            }
        }
    }

    fn line(&self) -> &[u8] {
        self.line.as_slice()
    }

    ghost gave_none = { λ a. refl };

    ghost gave_more = { λ a b c hs ks first then_. gives-more
        (R.remaining a.reader)
        (R.remaining b.reader)
        (R.remaining c.reader)
        hs
        ks
        first
        then_ };
}

/// Reads the next line into this one, up to its line feed or the end. A line that is too long is
/// read to its end, too.
fn read_line<R: Read>(reader: &mut R, line: &mut ArrayVec<u8, HEARD_LIMIT>) -> Result<Given, Failed>
    ensures gives { IfOk result (λ given. GivesOne
        (R.remaining reader.old)
        (R.remaining reader.new)
        (heard given line.new.items)) }
    ensures broken { OnErr result (LosesFront (R.remaining reader.old) (R.remaining reader.new)) }
{
    line.clear();
    let mut given = Given::NoMore;
    for _turn in 0..u64::MAX {
        match next_byte(reader)? {
            None => return Ok(given),
            Some(b'\n') => return Ok(ended(given)),
            Some(byte) => given = extended(line, given, byte),
        }
    }
    Err(Failed)
}

/// The next byte, or None at the end. As the standard library's own loops do, it tries again where
/// a signal interrupts the read.
fn next_byte<R: Read>(reader: &mut R) -> Result<Option<u8>, Failed>
    ensures gives { IfOk result
        (λ byte. GivesByte (R.remaining reader.old) byte (R.remaining reader.new)) }
    ensures kept { OnErr result (Keeps (R.remaining reader.old) (R.remaining reader.new)) }
{
    let mut one = [0; 1];
    for _turn in 0..u64::MAX {
        match reader.read(&mut one) {
            Ok(0) => return Ok(None),
            Ok(_) => return Ok(Some(one[0])),
            Err(error) if error.kind() == ErrorKind::Interrupted => {}
            Err(_) => return Err(Failed),
        }
    }
    Err(Failed)
}

/// What is given of a line that ends with a line feed, where this would be without it.
fn ended(given: Given) -> Given
    ensures { result ≡ ended given }
{
    match given {
        Given::NoMore => Given::Line,
        other => other,
    }
}

/// What is given of a line that goes on with this byte, which is appended where there is room.
fn extended(line: &mut ArrayVec<u8, HEARD_LIMIT>, given: Given, byte: u8) -> Given
    ensures line { line.new.items ≡ extended_line given line.old.items byte }
    ensures given { result ≡ extended given line.old.items }
{
    if given == Given::TooLong || line.is_full() {
        return Given::TooLong;
    }
    line.push(byte);
    Given::Line
}
