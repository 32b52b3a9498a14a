//! An executive from the bytes of a table.

ghost use Rattle.std.specs.Prelude.{◌≡◌, ◌≢◌, Ok, IfOk, IfErr, MatchResult};
ghost use Rattle.slot_core.specs.Keeping.Executives.{StandsFor};
ghost use Rattle.slot_core.specs.Keeping.Plans.{IsPlan, PlanParts};
ghost use Rattle.slot_core.specs.Runs.Traces.{started};
ghost use Rattle.table_codec.specs.Grammar.{Spells};
ghost use Rattle.faults.specs.declared.table_fault.TableFault.TheVariants.{Memory as NoMemory};
ghost use Rattle.slot_port.specs.declared.status.TheConstants.{BAD_TABLE, MEMORY};
ghost use Rattle.slot_port.specs.Faults.{IsRefused, fault_numbers};

use crate::numbers::{Told, fault_numbers};
use crate::status::{BAD_TABLE, MEMORY, Status};
use cycle_plan::Plan;
use interval_row::SpareTable;
use slot_exec::Exec;
use std::alloc::Global;
use table_codec::{TableFault, decode};

/// The executive of the plan that the bytes spell, before its first slot. It takes all memory that
/// it will need. `BAD_TABLE` where the bytes have a fault, which is told, and `MEMORY` where memory
/// ran out, of which nothing is told.
pub fn open<T: SpareTable>(alloc: Global, table: &[u8], fault: &mut Told) -> Result<Exec<T>, Status>
    ensures plan { IfOk result (λ exec. IsPlan exec.plan) }
    ensures spelled { IfOk result (λ exec. Spells table.now exec.plan) }
    ensures started { IfOk result (λ exec. StandsFor exec started) }
    ensures every { (plan : PlanParts) → IsPlan plan → Spells table.now plan
        → MatchResult result (λ exec. exec.plan ≡ plan) (λ status. status ≡ MEMORY) }
    ensures silent { IfOk result (λ exec. fault.new ≡ fault.old) }
    ensures refused { IfErr result (IsRefused table.now fault.old fault.new) }
{
    match decode(alloc, table) {
        Ok(plan) => start(alloc, plan),
        Err(refused) => Err(refusal(refused, fault)),
    }
}

/// The executive of a plan, before its first slot.
fn start<T: SpareTable>(alloc: Global, plan: Plan) -> Result<Exec<T>, Status>
    ensures plan { IfOk result (λ exec. exec.plan ≡ plan) }
    ensures started { IfOk result (λ exec. StandsFor exec started) }
    ensures refused { IfErr result (λ status. status ≡ MEMORY) }
{
    Exec::start(alloc, plan).map_err(|_| MEMORY)
}

/// The status of a table with this fault, which is told where it is not want of memory.
fn refusal(refused: TableFault, fault: &mut Told) -> Status
    ensures memory { refused ≡ NoMemory → (result ≡ MEMORY) × (fault.new ≡ fault.old) }
    ensures told { refused ≢ NoMemory
        → (result ≡ BAD_TABLE) × (fault.new ≡ fault_numbers refused) }
{
    if let TableFault::Memory = refused {
        return MEMORY;
    }
    *fault = fault_numbers(refused);
    BAD_TABLE
}
