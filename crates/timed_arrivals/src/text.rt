//! The text of an arrivals file in slots, and of a trace in times.

ghost use Rattle.std.specs.Prelude.{◌≡◌, ◌≢◌, ◌<◌, ◌-◌, Ok, Err, MatchResult};
ghost use Rattle.timed_arrivals.specs.Texts.{timed_text};

use crate::form::Form;
use crate::state::SoFar;
use crate::timed_fault::TimedFault;
use clock_units::PhysicalSet;
use std::alloc::Global;

/// The arrivals file of the bytes of a file of arrivals with times, for the set; or the trace in
/// times of a trace. Any fault but want of memory is its first, line by line. Lines end with a line
/// feed, an empty one is none, and a field has no quotes.
pub fn timed_text(
    alloc: Global,
    form: Form,
    set: &PhysicalSet,
    bytes: &[u8],
) -> Result<Vec<u8>, TimedFault>
    requires { set.now.overhead < set.now.slot }
    ensures { MatchResult result
        (λ text. timed_text form set.now bytes.now ≡ Ok text.items)
        (λ e. e ≢ TimedFault.Memory → timed_text form set.now bytes.now ≡ Err e) }
{
    let mut so_far = SoFar {
        form,
        slot: set.slot,
        worth: set.slot - set.overhead,
        row: 1,
        text: Vec::new(alloc),
        line: Vec::new(alloc),
    };
    for byte in bytes {
        so_far.take(*byte)?;
    }
    so_far.end_line()?;
    Ok(so_far.text)
}
