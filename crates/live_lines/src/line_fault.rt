//! Why a line is refused.

ghost use Rattle.std.specs.Prelude.{◌≡◌, ◌≤◌, ◌+◌, ◌++◌, length};
ghost use Rattle.trace_text.specs.declared.TheConstants.{LINE_LIMIT};
ghost use Rattle.live_lines.specs.declared.TheConstants.{FAULT_TEXT_LIMIT};
ghost use Rattle.live_lines.specs.FaultTexts.{fault_line, line_fault, line_fault_text};

use faults::ArrivalFault;
use std::error::Error;
use std::fmt;
use trace_text::Line;

/// Why a line of a live run is refused. A refused line changes nothing.
#[derive(Clone, Copy, PartialEq, Eq, Debug)]
pub enum LineFault {
    /// Its words are those of no command.
    NoCommand,
    /// The word at this place, counted from 1, is no number in its range.
    BadNumber(u32),
    /// Its name is that of no sporadic task.
    UnknownSporadic,
    /// Its text is no key of the task set.
    BadKey,
    /// It has more than `HEARD_LIMIT` bytes before its line feed.
    TooLong,
    /// `ARRIVAL_LIMIT` arrivals were answered already.
    NoMoreRows,
    /// The time would pass the limit of time.
    NoMoreSlots,
    /// Its bytes are no UTF-8.
    NotUtf8,
}

impl fmt::Display for LineFault {
    ghost use Rattle.std.specs.Prelude.{Some};
    ghost use Rattle.live_lines.specs.FaultTexts.{line_fault_text};

    ghost output = { λ fault. Some (line_fault_text fault) };

    fn fmt<W: fmt::Write>(&self, f: &mut fmt::Formatter<W>) -> fmt::Result {
        match self {
            LineFault::NoCommand => write!(f, "no command"),
            LineFault::BadNumber(place) => write!(f, "bad number {place}"),
            LineFault::UnknownSporadic => write!(f, "unknown sporadic"),
            LineFault::BadKey => write!(f, "bad key"),
            LineFault::TooLong => write!(f, "too long"),
            LineFault::NoMoreRows => write!(f, "no more rows"),
            LineFault::NoMoreSlots => write!(f, "no more slots"),
            LineFault::NotUtf8 => write!(f, "not UTF-8"),
        }
    }
}

impl Error for LineFault {}

impl From<ArrivalFault> for LineFault {
    ghost from_gives = { λ fault line. line ≡ line_fault fault };

    fn from(fault: ArrivalFault) -> LineFault {
        match fault {
            ArrivalFault::BadNumber(_, field) => LineFault::BadNumber(field.saturating_sub(1)),
            ArrivalFault::UnknownSporadic(_) => LineFault::UnknownSporadic,
            ArrivalFault::BadKey(_) => LineFault::BadKey,
            _ => LineFault::NoCommand,
        }
    }
}

/// The line on standard error that tells this fault of the line of this number, counted from 1. It
/// takes no memory.
pub fn fault_line(number: u64, fault: LineFault) -> Line
    ensures { result ≡ fault_line number fault }
{
    let mut line = Line::new();
    line.push(b"line ");
    line.number(number);
    line.push(b": ");
    push_fault(&mut line, fault);
    line.push(b"\n");
    line
}

/// Appends the text of the fault.
fn push_fault(line: &mut Line, fault: LineFault)
    requires { length line.old + FAULT_TEXT_LIMIT ≤ LINE_LIMIT }
    ensures text { line.new ≡ line.old ++ line_fault_text fault }
    ensures short { length line.new ≤ length line.old + FAULT_TEXT_LIMIT }
{
    match fault {
        LineFault::NoCommand => line.push(b"no command"),
        LineFault::BadNumber(place) => {
            line.push(b"bad number ");
            line.number(u64::from(place));
        }
        LineFault::UnknownSporadic => line.push(b"unknown sporadic"),
        LineFault::BadKey => line.push(b"bad key"),
        LineFault::TooLong => line.push(b"too long"),
        LineFault::NoMoreRows => line.push(b"no more rows"),
        LineFault::NoMoreSlots => line.push(b"no more slots"),
        LineFault::NotUtf8 => line.push(b"not UTF-8"),
    }
}
