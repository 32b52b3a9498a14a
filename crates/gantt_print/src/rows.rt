//! The rows of a chart.

ghost use Rattle.std.specs.Prelude.{◌≡◌, [], ◌∷◌, IfOk};
ghost use Rattle.slot_core.specs.Output.Charts.{is_in_row};
ghost use Rattle.gantt_print.specs.Rows.{row_of};
ghost use Rattle.gantt_print.specs.Drawings.{unmarked, with_runs};

use slot_core::{Key, Memory};
use std::alloc::Global;
use std::marker::Model;

/// Whose runs a row shows.
#[derive(Clone, Copy, PartialEq, Eq)]
pub enum Row {
    /// A task, by the indexes of its graph and of the task.
    Task(u16, u16),
    /// A sporadic task, by its index.
    Sporadic(u8),
    /// All firm jobs.
    Firm,
    /// All soft jobs.
    Soft,
}

impl Row {
    /// Whether the runs of a job of this key are in the row.
    pub fn holds(self, key: Key) -> bool
        ensures { result ≡ is_in_row (row_of self) key }
    {
        match (self, key) {
            (Row::Task(g, t), Key::Offline(graph, task, _)) => g == graph && t == task,
            (Row::Sporadic(s), Key::Sporadic(index, _)) => s == index,
            (Row::Firm, Key::Firm(_)) | (Row::Soft, Key::Soft(_)) => true,
            _ => false,
        }
    }
}

/// A row and its marks, one a slot: `#` where a job of the row ran, else `.`.
#[derive(Drop)]
pub struct Track {
    row: Row,
    marks: Vec<u8>,
}

impl Model for Track {
    ghost use Rattle.gantt_print.specs.Drawings.{MarkedRow};
    ghost use Rattle.gantt_print.specs.Rows.{row_of};

    ghost Value = { MarkedRow };

    ghost view = { λ t. record { row = row_of t.row; marks = t.marks.items } };
}

impl Track {
    /// The row over this many slots, in none of which a job of it has run.
    pub(crate) fn new(alloc: Global, row: Row, slots: u32) -> Result<Track, Memory>
        ensures { IfOk result (λ track. track ≡ unmarked slots (row_of row)) }
    {
        let marks = vec![in alloc; b'.'; slots as usize]?;
        Ok(Track { row, marks })
    }

    /// Marks the slot, where it is one of the row's and the key is of a job of the row.
    pub(crate) fn mark(&mut self, slot: u64, key: Key)
        ensures { self.new ≡ with_runs ((slot, key) ∷ []) self.old }
    {
        if self.row.holds(key) && slot < self.marks.len() as u64 {
            self.marks[slot as usize] = b'#';
        }
    }

    /// Whose runs it shows.
    pub(crate) fn row(&self) -> Row
        ensures { row_of result ≡ self.now.row }
    {
        self.row
    }

    /// Its marks.
    pub(crate) fn marks(&self) -> &[u8]
        ensures { result.now ≡ self.now.marks }
    {
        self.marks.as_slice()
    }
}
