//! Counts of calls, and the calls that are made to fail.

ghost use Rattle.std.specs.Prelude.{◌≡◌, ◌==◌, ◌+◌, ◌-◌, ◌^◌, min};
ghost use Rattle.slot_io.specs.Faults.{is_next_call, one_more};

/// One more, up to the last value of a `u64`.
pub(crate) fn one_more(count: u64) -> u64
    ensures { result ≡ one_more count }
{
    count.saturating_add(1)
}

/// Whether the call after this many calls is one of those that fail.
pub(crate) fn is_next_call(failing: &[u32], calls: u64) -> bool
    ensures { result ≡ is_next_call failing.now calls }
{
    failing.iter().any(|call| is_next(*call, calls))
}

/// Whether the call of this number comes after this many calls.
fn is_next(call: u32, calls: u64) -> bool
    ensures { result ≡ (call == calls + 1) }
{
    call > 0 && u64::from(call) - 1 == calls
}
