//! The binary table of a plan.
#![tactic(auto)]

ghost use Rattle.std.specs.Prelude.{◌≡◌, ◌≢◌, ◌<◌, ◌^◌, ◌++◌, ℕ, List, [], Ok, Err, IfOk, MatchResult};
ghost use Rattle.slot_core.specs.declared.faults.TaskFault.{TaskFault};
ghost use Rattle.slot_core.specs.Keeping.Plans.{IsPlan, PlanParts};
ghost use Rattle.table_codec.specs.Faults.{IsOfSet, NamesUnknown};
ghost use Rattle.table_codec.specs.Grammar.{AnswersAs, Spells, reading_of_table, spelling};

mod layout;
mod reader;
mod source;
mod stored;
mod table;
mod writer;

use cycle_plan::Plan;
pub use faults::TableFault;
use layout::Layout;
use reader::Input;
use slot_core::Memory;
use std::alloc::Global;
use table::read_table;
use writer::put_table;

/// The bytes of the plan: its one spelling in the second version.
pub fn encode(alloc: Global, plan: &Plan) -> Result<Vec<u8>, Memory>
    ensures { IfOk result (λ bytes. bytes.items ≡ spelling plan.now) }
{
    let mut out = Vec::new(alloc);
    put_table(&mut out, Layout::second(), plan)?;
    Ok(out)
}

/// The plan that the bytes spell, in the first version or the second, as they say themselves. Any
/// fault but want of memory is the first one: the fields are read from left to right, in the widths
/// of that version, and each name, count, length and time of the task set is checked as it is read;
/// then the set is checked, its plan is made, and the stored jobs and spans are compared with those
/// of the plan one by one. No count makes room for what it counts.
pub fn decode(alloc: Global, bytes: &[u8]) -> Result<Plan, TableFault>
    ensures reading { AnswersAs result (reading_of_table bytes.now) }

    // What is read was spelled so, and what is spelled so is read.
    ensures plan { IfOk result IsPlan }
    ensures spelled { IfOk result (Spells bytes.now) }
    ensures every { (plan : PlanParts) → IsPlan plan → Spells bytes.now plan
        → MatchResult result (λ p. p ≡ plan) (λ fault. fault ≡ TableFault.Memory) }

    // A version is refused exactly where it is neither of the two.
    ensures version { (version : ℕ) → result ≡ Err (TableFault.BadVersion version)
        → NamesUnknown bytes.now version }
    ensures unknown { (version : ℕ) → version < 2 ^ 16 → NamesUnknown bytes.now version
        → MatchResult result (λ _. ⊥)
        (λ fault. fault ≢ TableFault.Memory → fault ≡ TableFault.BadVersion version) }

    // A fault of the task set is none that only a text has.
    ensures source { (fault : TaskFault) → result ≡ Err (TableFault.BadSource fault)
        → IsOfSet fault }
{
    read(alloc, bytes)
}

/// The plan that the bytes write.
fn read(alloc: Global, bytes: &[u8]) -> Result<Plan, TableFault>
    ensures reading { AnswersAs result (reading_of_table bytes.now) }
    ensures plan { IfOk result IsPlan }
{
    let mut input = Input::of(bytes);
    read_table(alloc, &mut input)
}

/// No spelling of a plan begins another, in either version.
pub fn spellings_end_themselves()
    ensures { (a b : PlanParts) (front whole more : List ℕ) → IsPlan a → IsPlan b
        → Spells front a → Spells whole b → whole ≡ front ++ more → more ≡ [] }
{}
