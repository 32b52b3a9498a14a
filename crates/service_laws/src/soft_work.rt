//! Soft work: held back exactly where its slot is needed.

ghost use Rattle.service_laws.specs.SoftWork.{SoftWorkIsHeldBackExactly};

/// At every legal history of a feasible set at which soft work waits, the slot at hand runs it
/// exactly where the slot can be spared: with that slot gone, whatever legal arrivals come from the
/// next slot on, a slot schedule of the remaining jobs and the arrivals exists. It is held back
/// exactly where some legal arrivals leave none, the densest among them; in a set without sporadic
/// tasks exactly where the remaining jobs have none. So soft work that waits has each slot that no
/// scheduler would need for what is guaranteed (Fohler 1995; Isovic and Fohler 2000).
pub fn soft_work_is_held_back_exactly()
    ensures { SoftWorkIsHeldBackExactly }
{}
