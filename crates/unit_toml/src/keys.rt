//! The keys of a file of units.

ghost use Rattle.std.specs.Prelude.{◌≡◌, Some, IfSome, find};
ghost use Rattle.std.specs.Str.{bytes_eq};
ghost use Rattle.unit_toml.specs.declared.keys.UnitKey.{UnitKey};
ghost use Rattle.unit_toml.specs.FaultTexts.{key_word};

use slot_core::Part;
use std::fmt;

/// A key of a file of units.
#[derive(Clone, Copy, PartialEq, Eq)]
pub enum UnitKey {
    Slot,
    Overhead,
    Soft,
    Graph,
    Sporadic,
    Name,
    Period,
    Offset,
    Deadline,
    Task,
    Wcet,
    After,
    Separation,
    Plan,
    Arrives,
}

impl UnitKey {
    /// The key's word in the file.
    pub fn word(self) -> &'static str
        ensures { result.now ≡ key_word self }
    {
        match self {
            UnitKey::Slot => "slot",
            UnitKey::Overhead => "overhead",
            UnitKey::Soft => "soft",
            UnitKey::Graph => "graph",
            UnitKey::Sporadic => "sporadic",
            UnitKey::Name => "name",
            UnitKey::Period => "period",
            UnitKey::Offset => "offset",
            UnitKey::Deadline => "deadline",
            UnitKey::Task => "task",
            UnitKey::Wcet => "wcet",
            UnitKey::After => "after",
            UnitKey::Separation => "separation",
            UnitKey::Plan => "plan",
            UnitKey::Arrives => "arrives",
        }
    }

    /// The key whose word this is, or None exactly where it is no key's word.
    pub fn of(text: &str) -> Option<UnitKey>
        ensures word { IfSome result (λ key. key_word key ≡ text.now) }
        ensures every { (key : UnitKey) → key_word key ≡ text.now → result ≡ Some key }
    {
        key_of(&KEYS, text)
    }
}

/// The first of the keys whose word this is, or none.
fn key_of(keys: &[UnitKey], text: &str) -> Option<UnitKey>
    ensures first { result ≡ find (λ key. bytes_eq (key_word key) text.now) keys.now }
    ensures word { IfSome result (λ key. key_word key ≡ text.now) }
{
    keys.iter().copied().find(|key| key.word() == text)
}

/// The keys of a file of units.
const KEYS: [UnitKey; 15] = [
    UnitKey::Slot,
    UnitKey::Overhead,
    UnitKey::Soft,
    UnitKey::Graph,
    UnitKey::Sporadic,
    UnitKey::Name,
    UnitKey::Period,
    UnitKey::Offset,
    UnitKey::Deadline,
    UnitKey::Task,
    UnitKey::Wcet,
    UnitKey::After,
    UnitKey::Separation,
    UnitKey::Plan,
    UnitKey::Arrives,
];

impl fmt::Display for UnitKey {
    ghost use Rattle.std.specs.Prelude.{Some};
    ghost use Rattle.unit_toml.specs.FaultTexts.{key_word};

    ghost output = { λ key. Some (key_word key) };

    fn fmt<W: fmt::Write>(&self, f: &mut fmt::Formatter<W>) -> fmt::Result {
        f.write_str(self.word())
    }
}

/// A key in one table of the file.
#[derive(Clone, Copy, PartialEq, Eq)]
pub struct UnitPlace {
    /// The table.
    pub part: Part,
    /// The key.
    pub key: UnitKey,
}

impl fmt::Display for UnitPlace {
    ghost use Rattle.std.specs.Prelude.{Some};
    ghost use Rattle.unit_toml.specs.FaultTexts.{place_text};

    ghost output = { λ place. Some (place_text place) };

    fn fmt<W: fmt::Write>(&self, f: &mut fmt::Formatter<W>) -> fmt::Result {
        write!(f, "{} {}", self.part, self.key)
    }
}
