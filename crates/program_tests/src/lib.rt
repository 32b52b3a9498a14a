//! Tests of the commands, of views and of live runs, over files, lines, sinks and streams in memory.
#![tactic(auto)]

#[cfg(test)]
mod blocks;
#[cfg(test)]
mod command_runs;
#[cfg(test)]
mod fault_lines;
#[cfg(test)]
mod live_runs;
#[cfg(test)]
mod pictures;
pub mod record;
#[cfg(test)]
mod refusals;
#[cfg(test)]
mod sample_texts;
#[cfg(test)]
mod trace_texts;
#[cfg(test)]
mod view_runs;
