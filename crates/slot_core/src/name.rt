//! Names of graphs, tasks and sporadic tasks.

ghost use Rattle.std.specs.Prelude.{◌≡◌, IsTrue, Some, None, if◌then◌else◌};
ghost use Rattle.std.specs.List.{list_all};
ghost use Rattle.slot_core.specs.Sets.Names.{is_name, is_name_byte};

use crate::NAME_LIMIT;
use arrayvec::ArrayVec;
use std::marker::Model;

/// A name of 1 to `NAME_LIMIT` bytes: first an ASCII letter, then ASCII letters, digits, `_` or
/// `-`.
#[derive(Drop)]
pub struct Name {
    text: ArrayVec<u8, NAME_LIMIT>,
}

impl Model for Name {
    ghost use Rattle.std.specs.Prelude.{ℕ, List, IsTrue};
    ghost use Rattle.slot_core.specs.Sets.Names.{is_name};

    ghost Value = { List ℕ };

    ghost view = { λ n. n.text.items };

    ghost invariant = { λ n. IsTrue (is_name n.text.items) };
}

impl Name {
    /// The name of these bytes, or None exactly where they are no name.
    pub fn of(bytes: &[u8]) -> Option<Name>
        ensures { result ≡ (if is_name bytes.now then Some bytes.now else None) }
    {
        if !is_name(bytes) {
            return None;
        }
        let mut text = ArrayVec::new();
        for byte in bytes {
            text.push(*byte);
        }
        Some(Name { text })
    }

    /// The bytes of the name.
    pub fn bytes(&self) -> &[u8]
        ensures bytes { result.now ≡ self.now }
        ensures name { IsTrue (is_name self.now) }
    {
        self.text.as_slice()
    }
}

/// Whether the bytes have the form of a name.
fn is_name(bytes: &[u8]) -> bool
    ensures { result ≡ is_name bytes.now }
{
    match bytes {
        [] => false,
        [first, rest @ ..] => {
            first.is_ascii_alphabetic() && rest.len() < NAME_LIMIT && are_name_bytes(rest)
        }
    }
}

/// Whether each of the bytes may stand in a name after its first letter.
fn are_name_bytes(bytes: &[u8]) -> bool
    ensures { result ≡ list_all is_name_byte bytes.now }
{
    bytes.iter().all(|byte| is_name_byte(*byte))
}

/// Whether the byte may stand in a name after its first letter.
fn is_name_byte(byte: u8) -> bool
    ensures { result ≡ is_name_byte byte }
{
    byte.is_ascii_alphanumeric() || byte == b'_' || byte == b'-'
}
