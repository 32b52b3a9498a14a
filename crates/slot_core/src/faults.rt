//! Refusals that several crates answer, and places in a task file.

ghost use Rattle.std.specs.Prelude.{◌≡◌, Some, IfSome, find};
ghost use Rattle.std.specs.Str.{bytes_eq};
ghost use Rattle.slot_core.specs.declared.faults.Field.{Field};
ghost use Rattle.slot_core.specs.declared.faults.TaskFault.TheVariants.{Memory as MemoryFault};
ghost use Rattle.slot_core.specs.Output.FaultNumbers.{fault_number};
ghost use Rattle.slot_core.specs.Output.FaultTexts.{field_word};

use std::alloc::{AllocError, AllocFailed};
use std::error::Error;
use std::fmt;

/// Want of memory: the only error of a call with no other refusal.
#[derive(Clone, Copy, PartialEq, Eq, Debug)]
pub struct Memory;

impl From<AllocError> for Memory {
    fn from(_: AllocError) -> Memory {
        Memory
    }
}

impl<T: Drop> From<AllocFailed<T>> for Memory {
    fn from(_: AllocFailed<T>) -> Memory {
        Memory
    }
}

impl fmt::Display for Memory {
    ghost use Rattle.std.specs.Prelude.{Some, codes};

    ghost output = { λ _. Some (codes "out of memory") };

    fn fmt<W: fmt::Write>(&self, f: &mut fmt::Formatter<W>) -> fmt::Result {
        f.write_str("out of memory")
    }
}

impl Error for Memory {}

/// The fault of a file, a sink or another object that was handed in.
#[derive(Clone, Copy, PartialEq, Eq, Debug)]
pub struct Failed;

impl fmt::Display for Failed {
    ghost use Rattle.std.specs.Prelude.{Some, codes};

    ghost output = { λ _. Some (codes "failed") };

    fn fmt<W: fmt::Write>(&self, f: &mut fmt::Formatter<W>) -> fmt::Result {
        f.write_str("failed")
    }
}

impl Error for Failed {}

/// A table of the task file. Indexes count from 0.
#[derive(Clone, Copy, PartialEq, Eq)]
pub enum Part {
    /// The whole file.
    Top,
    /// A graph, by its index.
    Graph(u16),
    /// A task, by the indexes of its graph and of the task.
    Task(u16, u16),
    /// A sporadic task, by its index.
    Sporadic(u8),
}

impl fmt::Display for Part {
    ghost use Rattle.std.specs.Prelude.{Some};
    ghost use Rattle.slot_core.specs.Output.FaultTexts.{part_text};

    ghost output = { λ part. Some (part_text part) };

    fn fmt<W: fmt::Write>(&self, f: &mut fmt::Formatter<W>) -> fmt::Result {
        match self {
            Part::Top => write!(f, "top"),
            Part::Graph(graph) => write!(f, "graph {graph}"),
            Part::Task(graph, task) => write!(f, "graph {graph} task {task}"),
            Part::Sporadic(sporadic) => write!(f, "sporadic {sporadic}"),
        }
    }
}

/// A key of the task file.
#[derive(Clone, Copy, PartialEq, Eq)]
pub enum Field {
    Soft,
    Graph,
    Sporadic,
    Name,
    Period,
    Offset,
    Deadline,
    Task,
    Wcet,
    After,
    Separation,
}

impl Field {
    /// The key's word in the task file.
    pub fn word(self) -> &'static str
        ensures { result.now ≡ field_word self }
    {
        match self {
            Field::Soft => "soft",
            Field::Graph => "graph",
            Field::Sporadic => "sporadic",
            Field::Name => "name",
            Field::Period => "period",
            Field::Offset => "offset",
            Field::Deadline => "deadline",
            Field::Task => "task",
            Field::Wcet => "wcet",
            Field::After => "after",
            Field::Separation => "separation",
        }
    }

    /// The key whose word this is, or None exactly where it is no key's word.
    pub fn of(text: &str) -> Option<Field>
        ensures word { IfSome result (λ field. field_word field ≡ text.now) }
        ensures every { (field : Field) → field_word field ≡ text.now → result ≡ Some field }
    {
        field_of(&FIELDS, text)
    }
}

/// The first of the keys whose word this is, or none.
fn field_of(fields: &[Field], text: &str) -> Option<Field>
    ensures first { result ≡ find (λ field. bytes_eq (field_word field) text.now) fields.now }
    ensures word { IfSome result (λ field. field_word field ≡ text.now) }
{
    fields.iter().copied().find(|field| field.word() == text)
}

/// The keys of the task file.
const FIELDS: [Field; 11] = [
    Field::Soft,
    Field::Graph,
    Field::Sporadic,
    Field::Name,
    Field::Period,
    Field::Offset,
    Field::Deadline,
    Field::Task,
    Field::Wcet,
    Field::After,
    Field::Separation,
];

impl fmt::Display for Field {
    ghost use Rattle.std.specs.Prelude.{Some};
    ghost use Rattle.slot_core.specs.Output.FaultTexts.{field_word};

    ghost output = { λ field. Some (field_word field) };

    fn fmt<W: fmt::Write>(&self, f: &mut fmt::Formatter<W>) -> fmt::Result {
        f.write_str(self.word())
    }
}

/// A key in one table of the task file.
#[derive(Clone, Copy, PartialEq, Eq)]
pub struct Place {
    /// The table.
    pub part: Part,
    /// The key.
    pub field: Field,
}

impl fmt::Display for Place {
    ghost use Rattle.std.specs.Prelude.{Some};
    ghost use Rattle.slot_core.specs.Output.FaultTexts.{place_text};

    ghost output = { λ place. Some (place_text place) };

    fn fmt<W: fmt::Write>(&self, f: &mut fmt::Formatter<W>) -> fmt::Result {
        write!(f, "{} {}", self.part, self.field)
    }
}

/// Why a task file or a task set is refused.
#[derive(Clone, Copy, PartialEq, Eq)]
pub enum TaskFault {
    /// Memory ran out.
    Memory,
    /// The bytes are no TOML document.
    NotToml,
    /// A table has a key that it does not know.
    UnknownKey(Part),
    /// A key that must be there is not.
    Missing(Place),
    /// The value at a key is of another kind.
    WrongKind(Place),
    /// A number, with its value, is outside its range.
    OutOfRange(Place, i64),
    /// A text is no name.
    BadName(Place),
    /// A name, or an entry of `after`, stands a second time.
    Doubled(Place),
    /// An entry of `after` names no task of its graph.
    NoSuchTask(Place),
    /// A graph and its least task that leads back to itself along `after`.
    Loop(u16, u16),
    /// A list, with its length, is longer than its limit.
    TooMany(Place, u32),
    /// The least common multiple of periods and separations up to the first place where it is
    /// above `SLOT_LIMIT` slots.
    CycleTooLong(u64),
}

impl TaskFault {
    /// The fault's number, from 1 on in the order of the variants.
    pub fn number(self) -> u8
        ensures { result ≡ fault_number self }
    {
        match self {
            TaskFault::Memory => 1,
            TaskFault::NotToml => 2,
            TaskFault::UnknownKey(_) => 3,
            TaskFault::Missing(_) => 4,
            TaskFault::WrongKind(_) => 5,
            TaskFault::OutOfRange(_, _) => 6,
            TaskFault::BadName(_) => 7,
            TaskFault::Doubled(_) => 8,
            TaskFault::NoSuchTask(_) => 9,
            TaskFault::Loop(_, _) => 10,
            TaskFault::TooMany(_, _) => 11,
            TaskFault::CycleTooLong(_) => 12,
        }
    }
}

impl fmt::Display for TaskFault {
    ghost use Rattle.std.specs.Prelude.{Some};
    ghost use Rattle.slot_core.specs.Output.FaultTexts.{task_fault_text};

    ghost output = { λ fault. Some (task_fault_text fault) };

    fn fmt<W: fmt::Write>(&self, f: &mut fmt::Formatter<W>) -> fmt::Result {
        match self {
            TaskFault::Memory => write!(f, "out of memory"),
            TaskFault::NotToml => write!(f, "not toml"),
            TaskFault::UnknownKey(part) => write!(f, "unknown key in {part}"),
            TaskFault::Missing(place) => write!(f, "missing {place}"),
            TaskFault::WrongKind(place) => write!(f, "wrong kind {place}"),
            TaskFault::OutOfRange(place, value) => write!(f, "out of range {place} {value}"),
            TaskFault::BadName(place) => write!(f, "bad name {place}"),
            TaskFault::Doubled(place) => write!(f, "doubled {place}"),
            TaskFault::NoSuchTask(place) => write!(f, "no such task {place}"),
            TaskFault::Loop(graph, task) => write!(f, "loop graph {graph} task {task}"),
            TaskFault::TooMany(place, count) => write!(f, "too many {place} {count}"),
            TaskFault::CycleTooLong(multiple) => write!(f, "cycle too long {multiple}"),
        }
    }
}

impl fmt::Debug for TaskFault {
    fn fmt<W: fmt::Write>(&self, f: &mut fmt::Formatter<W>) -> fmt::Result {
        fmt::Display::fmt(self, f)
    }
}

impl Error for TaskFault {}

impl From<Memory> for TaskFault {
    ghost from_gives = { λ _ fault. fault ≡ MemoryFault };

    fn from(_: Memory) -> TaskFault {
        TaskFault::Memory
    }
}

impl<T: Drop> From<AllocFailed<T>> for TaskFault {
    ghost from_gives = { λ _ fault. fault ≡ MemoryFault };

    fn from(_: AllocFailed<T>) -> TaskFault {
        TaskFault::Memory
    }
}
