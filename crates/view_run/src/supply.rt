//! The staircase of a supply: what is read, and what is written of it.

ghost use Rattle.std.specs.Prelude.{◌≡◌, ◌≢◌, ◌⊎◌, All, Err, IfErr, IfOk, OnOk};
ghost use Rattle.slot_core.specs.Calls.Counts.{Rose};
ghost use Rattle.command_line.specs.declared.refusal.Refusal.TheVariants.{Memory as MemoryRefusal, WriteFault as WriteRefusal};
ghost use Rattle.command_line.specs.declared.refusal.Refusal.{Refusal};
ghost use Rattle.view_stairs.specs.Steps.{AreStairs, IsSmall, steps_text};
ghost use Rattle.view_run.specs.Shown.{Shows, ShowsPart};
ghost use Rattle.view_run.specs.Supplies.{AreSupply, IsNoSupply, IsStaircase, IsStaircaseDue, IsSupplyRefusal, IsUndrawn};

use crate::refusals::of_supply;
use crate::work::read_input;
use command_line::Refusal;
use slot_core::Failed;
use slot_io::{Files, Sink};
use std::alloc::Global;
use svg_text::Document;
use view_stairs::{Step, read_stairs, stairs};

/// Reads the lines of the supply, and writes the picture of them.
pub(crate) fn work_of_stairs<I: Files, K: Sink>(
    alloc: Global,
    input: &mut I,
    out: &mut K,
) -> Result<(), Refusal>
    ensures shown { OnOk result
        (Shows (IsStaircaseDue (I.held input.old)) (K.written out.old) (K.written out.new)) }
    ensures part { result ≡ Err WriteRefusal
        → ShowsPart (IsStaircaseDue (I.held input.old)) (K.written out.old) (K.written out.new) }
    ensures reads_well { OnOk result (I.faults input.new ≡ I.faults input.old) }
    ensures refused { IfErr result (λ e.
        IsSupplyRefusal (I.held input.old) (I.blamed input.new, I.given input.new)
        (I.faults input.old) (I.faults input.new) e
        ⊎ IsUndrawn (I.held input.old) (K.faults out.old) (K.faults out.new) e) }
    ensures untouched { (e : Refusal) → result ≡ Err e → e ≢ WriteRefusal → out.new ≡ out.old }
{
    let steps = read_supply(alloc, input)?;
    draw_stairs(alloc, &steps, out)
}

/// The lines of the supply on standard input.
fn read_supply<I: Files>(alloc: Global, input: &mut I) -> Result<Vec<Step>, Refusal>
    ensures supply { IfOk result (λ steps. AreSupply (I.held input.old) steps.items) }
    ensures small { IfOk result (λ steps. All IsSmall steps.items) }
    ensures refused { IfErr result
        (IsSupplyRefusal (I.held input.old) (I.blamed input.new, I.given input.new)
        (I.faults input.old) (I.faults input.new)) }
    ensures reads_well { OnOk result (I.faults input.new ≡ I.faults input.old) }
{
    let bytes = read_input(alloc, input)?;
    steps_of(alloc, &bytes)
}

/// The lines of the supply that the bytes write.
fn steps_of(alloc: Global, bytes: &[u8]) -> Result<Vec<Step>, Refusal>
    ensures text { IfOk result (λ steps. bytes.now ≡ steps_text steps.items) }
    ensures stairs { IfOk result (λ steps. AreStairs steps.items) }
    ensures small { IfOk result (λ steps. All IsSmall steps.items) }
    ensures refused { IfErr result (λ e. (e ≡ MemoryRefusal)
        ⊎ IsNoSupply (λ IsSo. IsSo bytes.now) e) }
{
    match read_stairs(alloc, bytes) {
        Ok(steps) => Ok(steps),
        Err(fault) => Err(of_supply(fault)),
    }
}

/// Writes the picture of the lines.
fn draw_stairs<K: Sink>(alloc: Global, steps: &[Step], out: &mut K) -> Result<(), Refusal>
    requires { All IsSmall steps.now }
    ensures shown { OnOk result
        (Shows (IsStaircase steps.now) (K.written out.old) (K.written out.new)) }
    ensures part { result ≡ Err WriteRefusal
        → ShowsPart (IsStaircase steps.now) (K.written out.old) (K.written out.new) }
    ensures refused { (e : Refusal) → result ≡ Err e → (e ≡ MemoryRefusal)
        ⊎ ((e ≡ WriteRefusal) × Rose (K.faults out.old) (K.faults out.new)) }
    ensures untouched { (e : Refusal) → result ≡ Err e → e ≢ WriteRefusal → out.new ≡ out.old }
{
    let document = stairs(alloc, steps)?;
    put_stairs(steps, &document, out)
}

/// Writes the document, a picture of the lines.
fn put_stairs<K: Sink>(steps: &[Step], document: &Document, out: &mut K) -> Result<(), Refusal>
    requires { IsStaircase steps.now document.now }
    ensures shown { OnOk result
        (Shows (IsStaircase steps.now) (K.written out.old) (K.written out.new)) }
    ensures part { result ≡ Err WriteRefusal
        → ShowsPart (IsStaircase steps.now) (K.written out.old) (K.written out.new) }
    ensures refused { (e : Refusal) → result ≡ Err e
        → (e ≡ WriteRefusal) × Rose (K.faults out.old) (K.faults out.new) }
{
    match document.put(out) {
        Ok(()) => Ok(()),
        Err(Failed) => Err(Refusal::WriteFault),
    }
}
