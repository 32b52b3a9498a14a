//! The texts of the faults of a recorded trace.

ghost use Rattle.std.specs.Prelude.{◌≡◌, ◌≤◌, ◌+◌, ◌++◌, ◌∷◌, true, decimal, length};
ghost use Rattle.slot_core.specs.Output.Texts.{key_text, worded};
ghost use Rattle.slot_core.specs.Runs.Arrivals.{key_in_set};
ghost use Rattle.trace_text.specs.declared.TheConstants.{DECIMAL_LIMIT};
ghost use Rattle.trace_verify.specs.declared.texts.TheConstants.{FAULT_LIMIT, FAULT_WORDS_LIMIT};
ghost use Rattle.faults.specs.VerifyTexts.{names_known, verify_fault_text};

use faults::VerifyFault;
use slot_core::{Key, TaskSet};
use trace_text::{DECIMAL_LIMIT, KEY_LIMIT, Line, key_text};

/// Most bytes of the words of a fault.
const FAULT_WORDS_LIMIT: usize = 100;

/// Most bytes of the text of a fault: its words, a number and a key, a space between them.
pub const FAULT_LIMIT: usize = FAULT_WORDS_LIMIT + 1 + DECIMAL_LIMIT + 1 + KEY_LIMIT;

/// The text that tells the fault. The key that it names lies in the task set.
pub fn fault_text(fault: VerifyFault, tasks: &TaskSet) -> Line
    requires { names_known tasks.now fault ≡ true }
    ensures text { result ≡ verify_fault_text tasks.now fault }
    ensures short { length result ≤ FAULT_LIMIT }
{
    match fault {
        VerifyFault::Memory => words(b"out of memory"),
        VerifyFault::Short(line) => worded(b"trace short", line),
        VerifyFault::NoRun(line) => worded(b"trace no run", line),
        VerifyFault::NotReady(line, key) => keyed(b"trace not ready", line, key, tasks),
        VerifyFault::Differs(line) => worded(b"trace differs", line),
        VerifyFault::Late(line, key) => keyed(b"trace late", line, key, tasks),
        VerifyFault::Trailing(line) => worded(b"trace trailing", line),
    }
}

/// The words.
fn words(text: &[u8]) -> Line
    requires { length text.now ≤ FAULT_WORDS_LIMIT }
    ensures words { result ≡ text.now }
    ensures short { length result ≤ FAULT_WORDS_LIMIT }
{
    let mut line = Line::new();
    line.push(text);
    line
}

/// The words, a space and the number.
fn worded(text: &[u8], number: u64) -> Line
    requires { length text.now ≤ FAULT_WORDS_LIMIT }
    ensures worded { result ≡ worded text.now number }
    ensures short { length result ≤ FAULT_WORDS_LIMIT + 1 + DECIMAL_LIMIT }
{
    let mut line = words(text);
    line.push(b" ");
    line.number(number);
    line
}

/// The words, a space, the number, a space and the key.
fn keyed(text: &[u8], number: u64, key: Key, tasks: &TaskSet) -> Line
    requires short { length text.now ≤ FAULT_WORDS_LIMIT }
    requires known { key_in_set tasks.now key ≡ true }
    ensures keyed { result ≡ worded text.now number ++ 32 ∷ key_text tasks.now key }
    ensures short { length result ≤ FAULT_LIMIT }
{
    let mut line = worded(text, number);
    line.push(b" ");
    line.push(key_text(key, tasks).bytes());
    line
}
