//! Why a file is refused: an arrivals file, a binary table, a recorded trace; with the numbers and
//! texts of the faults.
#![tactic(auto)]

pub mod arrival_fault;
pub mod table_fault;
pub mod verify_fault;

pub use arrival_fault::ArrivalFault;
pub use table_fault::TableFault;
pub use verify_fault::VerifyFault;
