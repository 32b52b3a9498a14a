//! A row of words.

ghost use Rattle.std.specs.Prelude.{◌≡◌, ℕ, ◌≤◌, ◌<◌, ◌^◌, List, length, replicate, IfOk, slice_set};
ghost use Rattle.node_chain.specs.Words.{word_at};

use crate::raw::{Origin, Permit, Places, give_back, make_block};
use slot_core::Memory;
use std::alloc::Global;
use std::marker::Model;

/// Words side by side in memory that is taken once, and given back when the row is dropped.
pub struct WordRow {
    origin: Origin<u64>,
    count: usize,
    places: Places<u64>,
    permit: Permit<u64, Global>,
    alloc: Global,
}

impl Model for WordRow {
    ghost use Rattle.std.specs.Prelude.{◌≡◌, ℕ, List};
    ghost use Rattle.node_chain.specs.Raw.{values, IsFull};

    ghost Value = { List ℕ };

    ghost view = { λ w. values w.places.held };

    ghost invariant = { λ w. (w.places.at ≡ w.origin.ptr) × (w.permit.at ≡ w.origin.ptr)
        × (w.permit.count ≡ w.count) × (w.permit.alloc ≡ w.alloc)
        × IsFull w.places.held w.count };
}

impl Drop for WordRow {
    fn drop(self) {
        let WordRow {
            origin,
            count,
            places,
            permit,
            alloc,
        } = self;
        give_back(&alloc, origin, count, places, permit);
    }
}

impl WordRow {
    /// So many words, each of them 0.
    pub(crate) fn new(alloc: Global, count: usize) -> Result<WordRow, Memory>
        requires { count ≤ 2 ^ 23 }
        ensures { IfOk result (λ made. made ≡ replicate count 0) }
    {
        let (origin, mut places, permit) = make_block(&alloc, count)?;
        for place in 0..count {
            places.put(origin, place, 0);
        }
        Ok(WordRow {
            origin,
            count,
            places,
            permit,
            alloc,
        })
    }

    /// The word at a place.
    pub(crate) fn word(&self, place: usize) -> u64
        requires { place < length self.now }
        ensures { result ≡ word_at self.now place }
    {
        *self.places.value(self.origin, place)
    }

    /// Puts a word at a place.
    pub(crate) fn put(&mut self, place: usize, word: u64)
        requires { place < length self.old }
        ensures { self.new ≡ slice_set self.old place word }
    {
        self.places.put(self.origin, place, word);
    }
}
