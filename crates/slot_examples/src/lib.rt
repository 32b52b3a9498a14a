//! Worked examples of the definitions of slot_core.
//!
//! They stand in `proofs/`: each holds by computing the definitions, or by a short proof where a
//! definition is no test.
#![tactic(auto)]
