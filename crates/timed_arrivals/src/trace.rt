//! The lines of a trace.

ghost use Rattle.std.specs.Prelude.{◌≡◌, ◌<◌, ◌++◌, Ok, Err, OnOk, IfOk, MatchResult, codes};
ghost use Rattle.time_texts.specs.Writing.{time_text};
ghost use Rattle.timed_arrivals.specs.Traces.{front_of, line_text, time_at, FrontParts};

use crate::timed_fault::TimedFault;
use key_texts::{cut_at, number_of};
use slot_core::Memory;
use time_texts::{NANOS_LIMIT, push_time};

/// The front of a line of a trace.
#[derive(Clone, Copy)]
pub(crate) struct LineFront<'a> {
    /// Its slot.
    pub(crate) slot: u32,
    /// What stands after the space behind it.
    pub(crate) told: &'a [u8],
}

/// The front of the line of this number.
pub(crate) fn front_of(number: u32, line: &[u8]) -> Result<LineFront<'_>, TimedFault>
    ensures { MatchResult result
        (λ front. front_of number line.now
        ≡ Ok (record { slot = front.slot; told = front.told.now }))
        (λ e. front_of number line.now ≡ Err e) }
{
    let Some((digits, told)) = cut_at(line, b' ') else {
        return Err(TimedFault::NoLine(number));
    };
    let Some(slot) = number_of(digits) else {
        return Err(TimedFault::NoLine(number));
    };
    Ok(LineFront { slot, told })
}

/// The time at which a slot begins, on the line of this number.
pub(crate) fn time_at(number: u32, length: u64, slot: u32) -> Result<u64, TimedFault>
    ensures { result ≡ time_at number length slot }
{
    let time = u128::from(length) * u128::from(slot);
    if time < u128::from(NANOS_LIMIT) {
        Ok(time as u64)
    } else {
        Err(TimedFault::TooLate(number))
    }
}

/// Appends the line with this time in front.
pub(crate) fn push_line(text: &mut Vec<u8>, time: u64, told: &[u8]) -> Result<(), Memory>
    ensures { OnOk result (text.new.items ≡ text.old.items ++ line_text time told.now) }
{
    push_time(text, time)?;
    text.push(b' ')?;
    text.extend_from_slice(told)?;
    text.push(b'\n')?;
    Ok(())
}
