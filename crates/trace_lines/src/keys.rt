//! Keys by the names that a text has.

ghost use Rattle.std.specs.Prelude.{◌≡◌, ◌≤◌, ◌+◌, ◌↔◌, [], ◌++◌, true, length, codes, decimal, Some};
ghost use Rattle.key_texts.specs.declared.TheConstants.{DIGIT_LIMIT};
ghost use Rattle.trace_lines.specs.declared.TheConstants.{KEY_NAME_LIMIT};
ghost use Rattle.trace_lines.specs.declared.line.KeyName.{KeyName};
ghost use Rattle.trace_lines.specs.Ranges.{key_fits};
ghost use Rattle.trace_lines.specs.Readings.{firm_row, key_named, offline_key, row_key, sporadic_key, worded_key};
ghost use Rattle.trace_lines.specs.Texts.{key_text};

use crate::KEY_NAME_LIMIT;
use crate::line::KeyName;
use arrayvec::ArrayVec;
use itoa::Buffer;
use key_texts::{cut_at, number_of, row_number};
use slot_core::Name;
use std::marker::Model;

/// The key that the text writes.
pub fn key_named(text: &[u8]) -> Option<KeyName>
    ensures reading { result ≡ key_named text.now }
    ensures exact { (key : KeyName) → (result ≡ Some key)
        ↔ ((key_fits key ≡ true) × (text.now ≡ key_text key)) }
{
    read_key(text)
}

/// The key in one of its forms.
fn read_key(text: &[u8]) -> Option<KeyName>
    ensures { result ≡ key_named text.now }
{
    offline_key(text)
        .or_else(|| sporadic_key(text))
        .or_else(|| row_key(text))
}

/// The key of an offline job: `GRAPH.TASK#INSTANCE`.
fn offline_key(text: &[u8]) -> Option<KeyName>
    ensures { result ≡ offline_key text.now }
{
    let (names, digits) = cut_at(text, b'#')?;
    let (graph, task) = cut_at(names, b'.')?;
    let instance = number_of(digits)?;
    let graph = Name::of(graph)?;
    let task = Name::of(task)?;
    Some(KeyName::Offline(graph, task, instance))
}

/// The key of a sporadic job: `NAME@ROW`.
fn sporadic_key(text: &[u8]) -> Option<KeyName>
    ensures { result ≡ sporadic_key text.now }
{
    let (name, digits) = cut_at(text, b'@')?;
    let row = row_number(digits)?;
    let name = Name::of(name)?;
    Some(KeyName::Sporadic(name, row))
}

/// The key of a firm or a soft job: `firm:ROW` or `soft:ROW`.
fn row_key(text: &[u8]) -> Option<KeyName>
    ensures { result ≡ row_key text.now }
{
    let (word, digits) = cut_at(text, b':')?;
    let row = row_number(digits)?;
    match word {
        b"firm" => Some(KeyName::Firm(row)),
        b"soft" => Some(KeyName::Soft(row)),
        _ => None,
    }
}

/// The row of the firm job whose key the text writes: `firm:ROW`.
pub(crate) fn firm_row(text: &[u8]) -> Option<u32>
    ensures { result ≡ firm_row text.now }
{
    let (word, digits) = cut_at(text, b':')?;
    match word {
        b"firm" => row_number(digits),
        _ => None,
    }
}

/// The text of a key, of at most `KEY_NAME_LIMIT` bytes, which contracts see as a list. It takes
/// no memory.
#[derive(Drop)]
pub struct KeyText {
    text: ArrayVec<u8, KEY_NAME_LIMIT>,
}

impl Model for KeyText {
    ghost use Rattle.std.specs.Prelude.{ℕ, List};

    ghost Value = { List ℕ };

    ghost view = { λ t. t.text.items };
}

impl KeyText {
    /// The bytes of the text.
    pub fn bytes(&self) -> &[u8]
        ensures bytes { result.now ≡ self.now }
        ensures short { length self.now ≤ KEY_NAME_LIMIT }
    {
        self.text.as_slice()
    }

    /// Appends the bytes.
    fn push(&mut self, bytes: &[u8])
        requires { length self.old + length bytes.now ≤ KEY_NAME_LIMIT }
        ensures { self.new ≡ self.old ++ bytes.now }
    {
        for byte in bytes {
            self.text.push(*byte);
        }
    }

    /// Appends the number in decimal digits.
    fn number(&mut self, n: u32)
        requires { length self.old + DIGIT_LIMIT ≤ KEY_NAME_LIMIT }
        ensures text { self.new ≡ self.old ++ decimal n }
    {
        let mut buffer = Buffer::new();
        self.push(buffer.format(n).as_bytes());
    }
}

/// The text of a key.
pub fn key_text(key: &KeyName) -> KeyText
    ensures { result ≡ key_text key.now }
{
    let mut text = KeyText {
        text: ArrayVec::new(),
    };
    push_key(&mut text, key);
    text
}

/// Appends the text of a key.
fn push_key(text: &mut KeyText, key: &KeyName)
    requires { text.old ≡ [] }
    ensures { text.new ≡ key_text key.now }
{
    match key {
        KeyName::Offline(graph, task, instance) => {
            text.push(graph.bytes());
            text.push(b".");
            text.push(task.bytes());
            text.push(b"#");
            text.number(*instance);
        }
        KeyName::Sporadic(name, row) => {
            text.push(name.bytes());
            text.push(b"@");
            text.number(*row);
        }
        KeyName::Firm(row) => {
            text.push(b"firm:");
            text.number(*row);
        }
        KeyName::Soft(row) => {
            text.push(b"soft:");
            text.number(*row);
        }
    }
}

impl KeyName {
    /// Whether both are the key of one job.
    pub fn is(&self, other: &KeyName) -> bool
        ensures { (result ≡ true) ↔ (self.now ≡ other.now) }
    {
        match (self, other) {
            (KeyName::Offline(graph, task, instance), KeyName::Offline(g, t, i)) => {
                *instance == *i && graph.bytes() == g.bytes() && task.bytes() == t.bytes()
            }
            (KeyName::Sporadic(name, row), KeyName::Sporadic(n, r)) => {
                *row == *r && name.bytes() == n.bytes()
            }
            (KeyName::Firm(row), KeyName::Firm(r)) => *row == *r,
            (KeyName::Soft(row), KeyName::Soft(r)) => *row == *r,
            _ => false,
        }
    }
}
