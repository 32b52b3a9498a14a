//! The texts of keys, and the indexes of names.

ghost use Rattle.std.specs.Prelude.{◌≡◌, ◌≢◌, ◌==◌, ◌≤◌, ◌++◌, ◌&&◌, drop, length, nat_lt, Some};
ghost use Rattle.slot_core.specs.declared.jobs.Key.{Key};
ghost use Rattle.slot_core.specs.Offline.OfflineJobs.{tasks_of};
ghost use Rattle.slot_core.specs.Output.Texts.{key_text as text_of_key};
ghost use Rattle.slot_core.specs.Runs.Arrivals.{key_in_set};
ghost use Rattle.key_texts.specs.KeyTexts.{sporadic_named};
ghost use Rattle.slot_port.specs.declared.TheConstants.{KEY_TEXT_LIMIT};
ghost use Rattle.slot_port.specs.declared.status.TheConstants.{OK};
ghost use Rattle.slot_port.specs.Keys.{key_named};
ghost use Rattle.slot_port.specs.Statuses.{name_status, room_status, text_status};

use crate::numbers::{KeyNumbers, key_named};
use crate::status::{BAD_NUMBER, OK, Status};
use interval_row::SpareTable;
use key_texts::sporadic_named;
use slot_core::{Key, TaskSet};
use slot_exec::Exec;
use trace_text::key_text as line_of_key;

/// Writes the text of a key, as a trace has it, to the front of `text`, and tells its length: at
/// most `KEY_TEXT_LIMIT` bytes. `BAD_NUMBER` where the numbers name no key of the set or the text
/// has no room.
pub fn key_text<T: SpareTable>(
    exec: &Exec<T>,
    key: KeyNumbers,
    text: &mut [u8],
    written: &mut usize,
) -> Status
    ensures status { result ≡ text_status exec.now key (length text.old) }
    ensures stays { result ≢ OK → text.new ≡ text.old }
    ensures silent { result ≢ OK → written.new ≡ written.old }
    ensures writes { (k : Key) → key_named key ≡ Some k → result ≡ OK
        → text.new ≡ text_of_key exec.now.plan.tasks k ++ drop written.new text.old }
    ensures tells { (k : Key) → key_named key ≡ Some k → result ≡ OK
        → written.new ≡ length (text_of_key exec.now.plan.tasks k) }
    ensures short { result ≡ OK → written.new ≤ KEY_TEXT_LIMIT }
{
    let Some(key) = key_named(key) else {
        return BAD_NUMBER;
    };
    if !is_in_set(exec.tasks(), key) {
        return BAD_NUMBER;
    }
    let line = line_of_key(key, exec.tasks());
    put_front(line.bytes(), text, written)
}

/// The index of the sporadic task of this name. `BAD_NUMBER` where none has it.
pub fn sporadic_index<T: SpareTable>(exec: &Exec<T>, name: &[u8], index: &mut u32) -> Status
    ensures status { result ≡ name_status exec.now name.now }
    ensures silent { result ≢ OK → index.new ≡ index.old }
    ensures tells { result ≡ OK
        → sporadic_named exec.now.plan.tasks.sporadics name.now ≡ Some index.new }
{
    let Some(found) = sporadic_named(exec.tasks().sporadics.items(), name) else {
        return BAD_NUMBER;
    };
    *index = found as u32;
    OK
}

/// Whether the set has what the key names.
fn is_in_set(tasks: &TaskSet, key: Key) -> bool
    ensures { result ≡ key_in_set tasks.now key }
{
    match key {
        Key::Offline(graph, task, _) => has_task(tasks, graph, task),
        Key::Sporadic(index, _) => usize::from(index) < tasks.sporadics.len(),
        Key::Firm(_) | Key::Soft(_) => true,
    }
}

/// Whether the set has this graph, and the graph this task.
fn has_task(tasks: &TaskSet, graph: u16, task: u16) -> bool
    ensures { result
        ≡ (nat_lt graph (length tasks.now.graphs)
        && nat_lt task (length (tasks_of tasks.now graph))) }
{
    let graphs = tasks.graphs.items();
    let graph = usize::from(graph);
    graph < graphs.len() && usize::from(task) < graphs[graph].tasks.len()
}

/// Writes the bytes to the front of the text, and tells how many they are. `BAD_NUMBER` where they
/// have no room.
pub(crate) fn put_front(bytes: &[u8], text: &mut [u8], written: &mut usize) -> Status
    ensures status { result ≡ room_status bytes.now (length text.old) }
    ensures stays { result ≢ OK → text.new ≡ text.old }
    ensures silent { result ≢ OK → written.new ≡ written.old }
    ensures writes { result ≡ OK → text.new ≡ bytes.now ++ drop written.new text.old }
    ensures tells { result ≡ OK → written.new ≡ length bytes.now }
{
    if bytes.len() > text.len() {
        return BAD_NUMBER;
    }
    let (front, _) = text.split_at_mut(bytes.len());
    front.copy_from_slice(bytes);
    *written = bytes.len();
    OK
}
