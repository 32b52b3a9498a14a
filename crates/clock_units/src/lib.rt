//! Task sets in physical time, and the sets in slots that stand for them.
//!
//! A time is a number of nanoseconds. A slot has one length for the whole set, of which the
//! overhead is lost to the job that has the slot: the tick, the switch, the executive. Worst cases
//! round up, separations down, and windows inwards; periods are whole numbers of slots.
#![tactic(auto)]

pub mod derived;
pub mod faults;
mod rounding;
pub mod sets;

pub use derived::slots_of;
pub use faults::UnitFault;
pub use sets::{
    PhysicalGraph, PhysicalGraphs, PhysicalSet, PhysicalSporadic, PhysicalSporadics, PhysicalTask,
    PhysicalTasks,
};
