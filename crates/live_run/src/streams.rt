//! The streams of a dialogue.

use std::error::Error;
use std::fmt;

/// The sinks that a dialogue puts its lines on, one put a line.
#[derive(Drop)]
pub struct Streams<K, R, E> {
    /// The answers.
    pub answers: K,
    /// The rows of what arrived, as an arrivals file has them.
    pub rows: R,
    /// The faults of lines.
    pub faults: E,
}

/// Why a dialogue ends before the end is asked for.
#[derive(Clone, Copy, PartialEq, Eq, Debug)]
pub enum DialogueFault {
    /// No more lines can be read.
    Input,
    /// The record takes no more.
    Record,
    /// The sink of the answers takes no more.
    Output,
}

impl fmt::Display for DialogueFault {
    ghost use Rattle.std.specs.Prelude.{Some};
    ghost use Rattle.live_run.specs.FaultTexts.{dialogue_fault_text};

    ghost output = { λ fault. Some (dialogue_fault_text fault) };

    fn fmt<W: fmt::Write>(&self, f: &mut fmt::Formatter<W>) -> fmt::Result {
        match self {
            DialogueFault::Input => write!(f, "cannot read lines"),
            DialogueFault::Record => write!(f, "cannot write the record"),
            DialogueFault::Output => write!(f, "cannot write answers"),
        }
    }
}

impl Error for DialogueFault {}
