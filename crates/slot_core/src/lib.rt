//! The types of slotshift, and the model that every contract above cites.
//!
//! Time is counted in slots from 0. The definitions stand in `specs/`, one file a topic.
#![tactic(auto)]

pub mod events;
pub mod faults;
pub mod jobs;
pub mod list;
pub mod name;
pub mod shown;
pub mod steps;
pub mod taker;
pub mod tasks;
pub mod words;

pub use events::{Arrival, Done, Entry, Event, Firm, Gone, Ran, Soft, Spo, What};
pub use faults::{Failed, Field, Memory, Part, Place, TaskFault};
pub use jobs::{Evidence, Job, Key, RawJob, SoftJob, Span, Window};
pub use list::List;
pub use name::Name;
pub use shown::Shown;
pub use steps::Steps;
pub use taker::Taker;
pub use tasks::{Afters, Graph, Graphs, Jobs, Spans, Sporadic, Sporadics, Task, TaskSet, Tasks};
pub use words::Words;

/// The version of the programs, of the library and of what they read and write.
pub const VERSION: &[u8] = b"1.0.0";

/// The logic of the kit that this version was proved with, as `rt version` tells it.
pub const LOGIC: &[u8] = b"dac8208d650f15bf";

/// Most bytes of a name.
pub const NAME_LIMIT: usize = 24;

/// Most graphs in a task set.
pub const GRAPH_LIMIT: usize = 32;

/// Most tasks in a graph.
pub const TASK_LIMIT: usize = 32;

/// Most `after` entries of a task.
pub const AFTER_LIMIT: usize = 31;

/// Most sporadic tasks in a task set.
pub const SPORADIC_LIMIT: usize = 8;

/// Longest period, separation, wcet and cycle, in slots.
pub const SLOT_LIMIT: u32 = 8192;

/// Most soft jobs that wait at one time.
pub const SOFT_LIMIT: u32 = 1024;

/// That limit where the task file tells none.
pub const SOFT_DEFAULT: u32 = 64;

/// Most arrivals, and the greatest row of one.
pub const ARRIVAL_LIMIT: u32 = 65_535;

/// Most slots of a soft or firm arrival, and the furthest deadline that an offer may name.
pub const OFFER_LIMIT: u32 = 65_535;

/// The greatest number of an arrivals file.
pub const NUMBER_LIMIT: u32 = 4_294_967_295;

/// Most slots of a replay.
pub const REPLAY_LIMIT: u32 = 100_000;

/// Most slots that an executive passes.
pub const TIME_LIMIT: u64 = 17_592_186_044_416;

/// An executive's horizon, the end of each span and each next arrival lie before this time.
pub const HORIZON_LIMIT: u64 = 2 * TIME_LIMIT;

/// Most cycles by which a job or a span is moved.
pub const CYCLES_LIMIT: u64 = HORIZON_LIMIT;

/// Most spans that an entry shows.
pub const SHOWN_LIMIT: usize = 8;

/// Most slots of a chart.
pub const CHART_LIMIT: u32 = 200;

/// Most graphs of a generated load.
pub const LOAD_LIMIT: u32 = 32;

/// Most bytes of a task file.
pub const TASK_FILE_LIMIT: usize = 1_048_576;

/// Most bytes of an arrivals file.
pub const ARRIVALS_FILE_LIMIT: usize = 4_194_304;

/// Most bytes of a table file.
pub const TABLE_FILE_LIMIT: usize = 4_194_304;

/// Most bytes that a read may be asked for.
pub const READ_LIMIT: usize = 67_108_864;
