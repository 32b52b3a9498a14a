//! The slots of the times of an arrival.

ghost use Rattle.std.specs.Prelude.{◌≡◌, ◌+◌, ◌*◌, ◌<◌};
ghost use Rattle.clock_units.specs.Rounding.{down, up};
ghost use Rattle.timed_arrivals.specs.Rows.{slots_within};

/// The pieces of this size that reach the time.
pub(crate) fn up(size: u64, time: u64) -> u64
    requires { 0 < size }
    ensures { result ≡ up size time }
{
    time.div_ceil(size)
}

/// The time from this one to the next boundary of slots.
fn wait_after(slot: u64, time: u64) -> u64
    requires { 0 < slot }
    ensures { time + result ≡ up slot time * slot }
{
    let passed = time % slot;
    if passed == 0 { 0 } else { slot - passed }
}

/// The slots from the boundary at which an arrival is handed over to the last one at or before the
/// time at which it is due.
pub(crate) fn slots_within(slot: u64, at: u64, deadline: u64) -> u64
    requires { 0 < slot }
    ensures { result ≡ slots_within slot at deadline }
{
    let wait = wait_after(slot, at);
    deadline.saturating_sub(wait) / slot
}
