//! Lemmas on the definitions of slot_core, for every crate above it.
//!
//! It has no code: the lemmas stand in `proofs/`, by subject.
#![tactic(auto)]
