//! The lines of a supply, read.

ghost use Rattle.std.specs.Prelude.{◌≡◌, ◌+◌, ◌++◌, ◌∷◌, ℕ, [], All, Err, IfOk, None, OnOk, Some, length, true};
ghost use Rattle.slot_core.specs.declared.TheConstants.{SLOT_LIMIT};
ghost use Rattle.view_stairs.specs.declared.fault.StairsFault.{StairsFault};
ghost use Rattle.view_stairs.specs.Steps.{foot, follows, next_step, numbers_of, step_from, step_of, steps_text, AreStairs, Breaks, IsRead, IsSmall};

use crate::fault::StairsFault;
use key_texts::{cut_at, number_of};
use slot_core::SLOT_LIMIT;
use std::alloc::Global;
use supply_find::Supply;

/// A line of a supply.
#[derive(Clone, Copy, PartialEq, Eq)]
pub struct Step {
    /// A number of slots up to a deadline.
    pub within: u32,
    /// The supply within them, and a window that leaves no more.
    pub supply: Supply,
}

/// The lines of the text of a supply, each with a line feed at its end: one at least.
pub fn read_stairs(alloc: Global, text: &[u8]) -> Result<Vec<Step>, StairsFault>
    ensures text { IfOk result (λ steps. text.now ≡ steps_text steps.items) }
    ensures stairs { IfOk result (λ steps. AreStairs steps.items) }
    ensures small { IfOk result (λ steps. All IsSmall steps.items) }
    ensures fault { (n : ℕ) → result ≡ Err (StairsFault.NoLine n) → Breaks text.now n }
{
    let mut steps = Vec::new(alloc);
    push_steps(&mut steps, text)?;
    Ok(steps)
}

/// Appends the lines of the text of a supply.
fn push_steps(steps: &mut Vec<Step>, text: &[u8]) -> Result<(), StairsFault>
    requires { steps.old.items ≡ [] }
    ensures text { OnOk result (text.now ≡ steps_text steps.new.items) }
    ensures stairs { OnOk result (AreStairs steps.new.items) }
    ensures fault { (n : ℕ) → result ≡ Err (StairsFault.NoLine n) → Breaks text.now n }
{
    let mut rest = text;
    let mut last = foot();
    while !rest.is_empty() {
        let Some((line, after)) = cut_at(rest, b'\n') else {
            return Err(no_line(steps));
        };
        last = push_step(steps, line, last)?;
        rest = after;
    }
    if steps.is_empty() {
        Err(no_line(steps))
    } else {
        Ok(())
    }
}

/// Where a staircase begins.
fn foot() -> Step
    ensures { result ≡ foot }
{
    Step {
        within: 0,
        supply: Supply {
            slots: 0,
            from: 0,
            until: 0,
        },
    }
}

/// Appends the line that the bytes write, and answers it.
fn push_step(steps: &mut Vec<Step>, bytes: &[u8], last: Step) -> Result<Step, StairsFault>
    ensures ok { IfOk result (λ step. (next_step last bytes.now ≡ Some step)
        × (steps.new.items ≡ steps.old.items ++ step ∷ [])) }
    ensures fault { (n : ℕ) → result ≡ Err (StairsFault.NoLine n)
        → (n ≡ length steps.old.items + 1) × (next_step last bytes.now ≡ None) }
{
    let Some(step) = next_step(last, bytes) else {
        return Err(no_line(steps));
    };
    steps.push(step)?;
    Ok(step)
}

/// The fault of the line after these.
fn no_line(steps: &[Step]) -> StairsFault
    ensures { result ≡ StairsFault.NoLine (length steps.now + 1) }
{
    StairsFault::NoLine(steps.len() as u64 + 1)
}

/// The line that the bytes write, where it may stand after another.
fn next_step(last: Step, bytes: &[u8]) -> Option<Step>
    ensures { result ≡ next_step last bytes.now }
{
    let step = step_of(bytes)?;
    if follows(last, step) {
        Some(step)
    } else {
        None
    }
}

/// Whether a line may stand after another.
fn follows(last: Step, step: Step) -> bool
    ensures { result ≡ follows last step }
{
    last.within < step.within
        && step.within <= SLOT_LIMIT
        && last.supply.slots <= step.supply.slots
        && step.supply.slots - last.supply.slots <= step.within - last.within
}

/// The line that the bytes write: the word supply, and its numbers.
fn step_of(bytes: &[u8]) -> Option<Step>
    ensures { result ≡ step_of bytes.now }
{
    let (word, numbers) = cut_at(bytes, b' ')?;
    match word {
        b"supply" => numbers_of(numbers),
        _ => None,
    }
}

/// The line of the four numbers that the text writes.
fn numbers_of(text: &[u8]) -> Option<Step>
    ensures { result ≡ numbers_of text.now }
{
    let (within, rest) = cut_at(text, b' ')?;
    let (slots, rest) = cut_at(rest, b' ')?;
    let (from, until) = cut_at(rest, b' ')?;
    step_from(within, slots, from, until)
}

/// The line of the numbers that these texts write.
fn step_from(within: &[u8], slots: &[u8], from: &[u8], until: &[u8]) -> Option<Step>
    ensures { result ≡ step_from within.now slots.now from.now until.now }
{
    let within = number_of(within)?;
    let slots = number_of(slots)?;
    let from = number_of(from)?;
    let until = number_of(until)?;
    Some(Step {
        within,
        supply: Supply { slots, from, until },
    })
}
