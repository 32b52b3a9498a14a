//! A live run: an executive that is talked to, over any files, lines and sinks. Each line of a
//! source is answered at once, by the lines of the entries that its command makes.
#![tactic(auto)]

mod answers;
pub mod call;
mod carried;
pub mod dialogue;
pub mod host;
pub mod laws;
mod looks;
mod pages;
mod puts;
pub mod record;
pub mod refusal;
mod report;
mod runs;
pub mod streams;
mod work;

pub use call::{LiveCall, live_call_of};
pub use dialogue::converse;
pub use host::run_on_host;
pub use record::{HostRecord, RecordFile, RecordNames};
pub use refusal::LiveRefusal;
pub use runs::run;
pub use streams::{DialogueFault, Streams};
