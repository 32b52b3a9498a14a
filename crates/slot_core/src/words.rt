//! The words of a command line.

ghost use Rattle.std.specs.Prelude.{◌≡◌, ◌==◌, ◌<◌, [], ◌∷◌, ◌++◌, length, slice_get, Some, OnOk, OnErr};

use crate::faults::Memory;
use std::alloc::Global;
use std::marker::Model;

/// Words, which contracts see as the list of their texts.
#[derive(Drop)]
pub struct Words {
    alloc: Global,
    texts: Vec<String>,
}

impl Model for Words {
    ghost use Rattle.std.specs.Prelude.{ℕ, List, map, string_bytes};

    ghost Value = { List (List ℕ) };

    ghost view = { λ w. map string_bytes w.texts.items };
}

impl Words {
    /// No words, which takes no memory yet.
    pub fn new(alloc: Global) -> Words
        ensures { result ≡ [] }
    {
        Words {
            alloc,
            texts: Vec::new(alloc),
        }
    }

    /// Appends a copy of the word. After Memory the list is as it was.
    pub fn push(&mut self, word: &str) -> Result<(), Memory>
        ensures ok { OnOk result (self.new ≡ self.old ++ word.now ∷ []) }
        ensures err { OnErr result (self.new ≡ self.old) }
    {
        let text = String::from_str(self.alloc, word)?;
        self.texts.push(text)?;
        Ok(())
    }

    /// The number of words.
    pub fn len(&self) -> usize
        ensures { result ≡ length self.now }
    {
        self.texts.len()
    }

    /// Whether there is no word.
    pub fn is_empty(&self) -> bool
        ensures { result ≡ (length self.now == 0) }
    {
        self.texts.is_empty()
    }

    /// The word at this place.
    pub fn word(&self, i: usize) -> &str
        requires { i < length self.now }
        ensures { slice_get self.now i ≡ Some result.now }
    {
        self.texts[i].as_str()
    }
}
