//! What the lines of a file are.

ghost use Rattle.std.specs.Prelude.{◌≡◌, ◌<◌, ◌-◌, ◌^◌};
ghost use Rattle.timed_arrivals.specs.Texts.{limit_of};

use slot_core::{ARRIVAL_LIMIT, NUMBER_LIMIT};

/// What the lines of a file are.
#[derive(Clone, Copy, PartialEq, Eq)]
pub enum Form {
    /// Rows of arrivals with times, which are written in slots.
    Arrivals,
    /// Lines of a trace, whose slots are written as times.
    Trace,
}

/// Most lines of this form.
pub(crate) fn limit_of(form: Form) -> u32
    ensures limit { result ≡ limit_of form }
    ensures small { result < 2 ^ 32 - 1 }
{
    match form {
        Form::Arrivals => ARRIVAL_LIMIT,
        Form::Trace => NUMBER_LIMIT - 1,
    }
}
