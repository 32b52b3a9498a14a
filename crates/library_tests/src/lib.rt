//! Tests of public functions of the crates below the programs, and a caller of the executive that is
//! proved.
#![tactic(auto)]

#[cfg(test)]
mod arrivals_files;
#[cfg(test)]
mod binary_tables;
#[cfg(test)]
mod chains;
#[cfg(test)]
mod charts;
#[cfg(test)]
mod cycles;
#[cfg(test)]
mod drawn_calls;
#[cfg(test)]
mod executives;
#[cfg(test)]
mod fakes;
#[cfg(test)]
mod files_and_sinks;
#[cfg(test)]
mod fronts;
#[cfg(test)]
mod lines;
#[cfg(test)]
mod loads;
#[cfg(test)]
mod margins;
#[cfg(test)]
mod names;
#[cfg(test)]
mod names_and_lists;
#[cfg(test)]
mod offers;
#[cfg(test)]
mod plans;
#[cfg(test)]
mod queues;
#[cfg(test)]
mod reserves;
#[cfg(test)]
mod span_tables;
pub mod table_caller;
#[cfg(test)]
mod task_files;
#[cfg(test)]
mod verdicts;
#[cfg(test)]
mod windows;
