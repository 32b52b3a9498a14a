//! Tables as comma-separated values, with a header and rows of as many fields.
#![tactic(auto)]

mod cells;
mod faults;
mod rows;

pub use cells::Cell;
pub use faults::CsvFault;
pub use rows::Rows;
