//! The keys that texts write.

ghost use Rattle.std.specs.Prelude.{◌≡◌, ◌<◌, ◌↔◌, ◌==◌, true, length, Some, IfSome, option_map, position};
ghost use Rattle.slot_core.specs.declared.jobs.Key.{Key};
ghost use Rattle.slot_core.specs.Runs.Arrivals.{key_in_range, key_in_set};
ghost use Rattle.slot_core.specs.Sets.Ranges.{is_sound};
ghost use Rattle.slot_core.specs.Output.Texts.{key_text};
ghost use Rattle.key_texts.specs.KeyTexts.{cut_at, graph_named, key_of_text, offline_key, row_key, sporadic_key, sporadic_named, task_named, worded_key};

use crate::numbers::{number_of, row_number};
use slot_core::{Graph, Key, Sporadic, Task, TaskSet};

/// The key that the text writes: the one key of the set whose text it is.
pub fn key_of(tasks: &TaskSet, text: &[u8]) -> Option<Key>
    requires { is_sound tasks.now ≡ true }
    ensures reading { result ≡ key_of_text tasks.now text.now }
    ensures exact { (key : Key) → (result ≡ Some key)
        ↔ ((key_in_set tasks.now key ≡ true) × (key_in_range key ≡ true)
        × (text.now ≡ key_text tasks.now key)) }
{
    offline_key(tasks, text)
        .or_else(|| sporadic_key(tasks, text))
        .or_else(|| row_key(text))
}

/// The key of an offline job: `GRAPH.TASK#INSTANCE`.
fn offline_key(tasks: &TaskSet, text: &[u8]) -> Option<Key>
    requires { is_sound tasks.now ≡ true }
    ensures { result ≡ offline_key tasks.now text.now }
{
    let (names, digits) = cut_at(text, b'#')?;
    let (graph_name, task_name) = cut_at(names, b'.')?;
    let graphs = tasks.graphs.items();
    let graph = graph_named(graphs, graph_name)?;
    let task = task_named(graphs[graph].tasks.items(), task_name)?;
    let instance = number_of(digits)?;
    Some(Key::Offline(graph as u16, task as u16, u64::from(instance)))
}

/// The key of a sporadic job: `NAME@ROW`.
fn sporadic_key(tasks: &TaskSet, text: &[u8]) -> Option<Key>
    requires { is_sound tasks.now ≡ true }
    ensures { result ≡ sporadic_key tasks.now text.now }
{
    let (name, digits) = cut_at(text, b'@')?;
    let index = sporadic_named(tasks.sporadics.items(), name)?;
    let row = row_number(digits)?;
    Some(Key::Sporadic(index as u8, row))
}

/// The key of a firm or a soft job: `firm:ROW` or `soft:ROW`.
fn row_key(text: &[u8]) -> Option<Key>
    ensures { result ≡ row_key text.now }
{
    let (word, digits) = cut_at(text, b':')?;
    let row = row_number(digits)?;
    match word {
        b"firm" => Some(Key::Firm(row)),
        b"soft" => Some(Key::Soft(row)),
        _ => None,
    }
}

/// What stands before the first such byte and what stands after it, where there is one.
pub fn cut_at(text: &[u8], byte: u8) -> Option<(&[u8], &[u8])>
    ensures { option_map (λ parts. (parts.0.now, parts.1.now)) result ≡ cut_at byte text.now }
{
    let at = place_of(text, byte)?;
    Some((&text[..at], &text[at + 1..]))
}

/// The place of the first such byte.
fn place_of(text: &[u8], byte: u8) -> Option<usize>
    ensures { result ≡ position (λ b. b == byte) text.now }
{
    text.iter().position(|b| *b == byte)
}

/// The index of the first graph of this name.
fn graph_named(graphs: &[Graph], name: &[u8]) -> Option<usize>
    ensures found { result ≡ graph_named graphs.now name.now }
    ensures there { IfSome result (λ graph. graph < length graphs.now) }
{
    graphs.iter().position(|graph| graph.name.bytes() == name)
}

/// The index of the first task of this name.
fn task_named(tasks: &[Task], name: &[u8]) -> Option<usize>
    ensures found { result ≡ task_named tasks.now name.now }
    ensures there { IfSome result (λ task. task < length tasks.now) }
{
    tasks.iter().position(|task| task.name.bytes() == name)
}

/// The index of the first sporadic task of this name.
pub fn sporadic_named(sporadics: &[Sporadic], name: &[u8]) -> Option<usize>
    ensures found { result ≡ sporadic_named sporadics.now name.now }
    ensures there { IfSome result (λ index. index < length sporadics.now) }
{
    sporadics
        .iter()
        .position(|sporadic| sporadic.name.bytes() == name)
}
