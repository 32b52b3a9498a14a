//! The text of a task file, and whether it is read as the set.

ghost use Rattle.std.specs.Prelude.{◌≡◌, ◌≢◌, true, Ok, IfOk, IfErr, OnOk};
ghost use Rattle.slot_core.specs.Sets.Ranges.{is_sound};
ghost use Rattle.task_text.specs.declared.text.TextFault.TheVariants.{Memory as MemoryFault};
ghost use Rattle.task_toml.specs.Reading.{reading_of_tasks};

use crate::same::is_same_set;
use crate::writing::push_set;
use clock_units::PhysicalSet;
use slot_core::{Memory, TaskFault, TaskSet};
use std::alloc::Global;
use task_toml::read_tasks;

/// Why a set has no text.
#[derive(Clone, Copy, PartialEq, Eq)]
pub enum TextFault {
    /// Memory ran out.
    Memory,
    /// The text is read as another set, or as none.
    ReadsOtherwise,
}

impl From<Memory> for TextFault {
    ghost from_gives = { λ _ fault. fault ≡ MemoryFault };

    fn from(_: Memory) -> TextFault {
        TextFault::Memory
    }
}

/// The text of a task file that is read as `set`, the set in slots of `physical`. Comments tell the
/// times, and what rounding adds to them or takes from them.
pub fn text_of(alloc: Global, physical: &PhysicalSet, set: &TaskSet) -> Result<Vec<u8>, TextFault>
    ensures reading { IfOk result (λ text. reading_of_tasks text.items ≡ Ok set.now) }
    ensures sound { IfOk result (λ _. is_sound set.now ≡ true) }
{
    let mut text = Vec::new(alloc);
    push_set(&mut text, physical, set)?;
    check_text(alloc, text.as_slice(), set)?;
    Ok(text)
}

/// Refuses a text exactly where it is not read as the set, but for want of memory.
pub fn check_text(alloc: Global, text: &[u8], set: &TaskSet) -> Result<(), TextFault>
    ensures same { OnOk result (reading_of_tasks text.now ≡ Ok set.now) }
    ensures sound { OnOk result (is_sound set.now ≡ true) }
    ensures other { IfErr result
        (λ e. e ≢ TextFault.Memory → reading_of_tasks text.now ≢ Ok set.now) }
{
    let read = match read_tasks(alloc, text) {
        Ok(read) => read,
        Err(TaskFault::Memory) => return Err(TextFault::Memory),
        Err(_) => return Err(TextFault::ReadsOtherwise),
    };
    if is_same_set(&read, set) {
        Ok(())
    } else {
        Err(TextFault::ReadsOtherwise)
    }
}
