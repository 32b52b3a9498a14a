//! The law of what a change of plan owes to its jobs. It is the contract of a function with no
//! parameters and an empty body; `change_laws` has those of when a change can be served.

ghost use Rattle.mode_switch.specs.Laws.{ChangesAreServed};

/// After a change that can be served each carried job and each job of the second set is served, for
/// ever: by earliest deadline first none is late (Liu and Layland 1973; Dertouzos 1974).
pub fn changes_are_served()
    ensures { ChangesAreServed }
{}
