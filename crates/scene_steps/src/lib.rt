//! What an event changes in a scene and in its spans, for the executive above.
//!
//! It has no code: the definitions stand in `specs/`. The lemmas in `proofs/` show that the scenes
//! of histories change so, and the spans of scenes as a table's spans do.
#![tactic(auto)]
