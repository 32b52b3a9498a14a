//! The lines of a trace that tell what ran in a slot.

ghost use Rattle.std.specs.Prelude.{◌≡◌, ◌↔◌, true, Some};
ghost use Rattle.slot_core.specs.declared.events.Ran.{Ran};
ghost use Rattle.slot_core.specs.Sets.Ranges.{is_sound};
ghost use Rattle.trace_text.specs.RunLines.{run_before, run_of_line, TellsRun};

use key_texts::{cut_at, key_of, number_of};
use slot_core::{Ran, TaskSet};

/// What the line tells that ran: nothing, or the job of a key of the set. None where it is no line
/// of a slot: a number, one space, `idle` or `run` with a key, and one space before any rest.
pub fn read_run(line: &[u8], tasks: &TaskSet) -> Option<Ran>
    requires { is_sound tasks.now ≡ true }
    ensures reading { result ≡ run_of_line tasks.now line.now }
    ensures exact { (ran : Ran) → (result ≡ Some ran) ↔ TellsRun tasks.now line.now ran }
{
    run_of_line(line, tasks)
}

/// What ran, read from the front of the line.
fn run_of_line(line: &[u8], tasks: &TaskSet) -> Option<Ran>
    requires { is_sound tasks.now ≡ true }
    ensures { result ≡ run_of_line tasks.now line.now }
{
    let (time, told) = cut_at(line, b' ')?;
    number_of(time)?;
    let (word, text) = cut_at(told, b' ')?;
    match word {
        b"idle" => Some(Ran::Idle),
        b"run" => run_before(text, tasks),
        _ => None,
    }
}

/// The run of the key that stands before the first space.
fn run_before(text: &[u8], tasks: &TaskSet) -> Option<Ran>
    requires { is_sound tasks.now ≡ true }
    ensures { result ≡ run_before tasks.now text.now }
{
    let (key, _) = cut_at(text, b' ')?;
    let key = key_of(tasks, key)?;
    Some(Ran::Key(key))
}
