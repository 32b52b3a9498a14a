//! Lists whose first places may be free.

ghost use Rattle.std.specs.Prelude.{◌≡◌, ◌+◌, ◌≤◌, ◌<◌, [], ◌∷◌, ◌++◌, drop, get_or, insert, length, remove, set, vec_len, OnErr, OnOk};

use slot_core::Memory;
use std::alloc::Global;
use std::marker::Model;

/// A list in a `Vec` whose first places may be free: an item that comes or goes moves those before
/// it or those behind it, whichever are fewer.
#[derive(Drop)]
pub(crate) struct Front<T> {
    row: Vec<T>,
    start: usize,
}

impl<T> Model for Front<T> {
    ghost use Rattle.std.specs.Prelude.{◌≤◌, List, drop, vec_len};

    ghost Value = { List T };

    ghost view = { λ f. drop f.start f.row.items };

    ghost invariant = { λ f. f.start ≤ vec_len f.row };
}

impl<T: Copy + Drop> Front<T> {
    /// No items.
    pub(crate) fn new(alloc: Global) -> Front<T>
        ensures { result ≡ [] }
    {
        Front {
            row: Vec::new(alloc),
            start: 0,
        }
    }

    /// The items, in order.
    pub(crate) fn items(&self) -> &[T]
        ensures { result.now ≡ self.now }
    {
        &self.row.as_slice()[self.start..]
    }

    /// How many items there are.
    pub(crate) fn len(&self) -> usize
        ensures { result ≡ length self.now }
    {
        self.row.len() - self.start
    }

    /// Puts another item at a place.
    pub(crate) fn set(&mut self, place: usize, item: T)
        requires { place < length self.old }
        ensures { self.new ≡ set self.old place item }
    {
        self.row[self.start + place] = item;
    }

    /// Appends an item. Where more places are free than used, the items move to the first ones.
    pub(crate) fn push(&mut self, item: T) -> Result<(), Memory>
        ensures pushed { OnOk result (self.new ≡ self.old ++ item ∷ []) }
        ensures stays { OnErr result (self.new ≡ self.old) }
    {
        if self.len() < self.start {
            drop_front(&mut self.row, self.start);
            self.start = 0;
        }
        self.row.push(item)?;
        Ok(())
    }

    /// Puts an item in at a place. Where fewer stand before it than behind it, those move to the
    /// front, if a place is free there.
    pub(crate) fn insert(&mut self, place: usize, item: T) -> Result<(), Memory>
        requires { place ≤ length self.old }
        ensures inserted { OnOk result (self.new ≡ insert self.old place item) }
        ensures stays { OnErr result (self.new ≡ self.old) }
    {
        if self.start == 0 || self.len() - place <= place {
            self.row.insert(self.start + place, item)?;
        } else {
            self.start = put_before(&mut self.row, self.start, place, item);
        }
        Ok(())
    }

    /// Takes the item at a place out.
    pub(crate) fn remove(&mut self, place: usize) -> T
        requires { place < length self.old }
        ensures value { result ≡ get_or self.old place result }
        ensures rest { self.new ≡ remove self.old place }
    {
        if self.len() - place <= place {
            return self.row.remove(self.start + place);
        }
        let item = self.row[self.start + place];
        self.start = close_before(&mut self.row, self.start, place);
        item
    }
}

/// Of the items from `start` on, that at a place goes, and those before it move back. Returns where
/// they begin afterwards.
fn close_before<T: Copy + Drop>(row: &mut Vec<T>, start: usize, place: usize) -> usize
    requires { start + place < vec_len row.old }
    ensures rest { drop result row.new.items ≡ remove (drop start row.old.items) place }
    ensures within { result ≤ vec_len row.new }
{
    row.copy_within(start..start + place, start + 1);
    start + 1
}

/// Puts an item in at a place of the items from `start` on, of which those before it move to the
/// front, and returns where they begin afterwards.
fn put_before<T: Copy + Drop>(row: &mut Vec<T>, start: usize, place: usize, item: T) -> usize
    requires free { 1 ≤ start }
    requires within { start + place ≤ vec_len row.old }
    ensures inserted { drop result row.new.items ≡ insert (drop start row.old.items) place item }
    ensures within { result ≤ vec_len row.new }
{
    row.copy_within(start..start + place, start - 1);
    row[start - 1 + place] = item;
    start - 1
}

/// The items before `start` go.
fn drop_front<T: Copy + Drop>(row: &mut Vec<T>, start: usize)
    requires { start ≤ vec_len row.old }
    ensures { row.new.items ≡ drop start row.old.items }
{
    row.copy_within(start.., 0);
    row.truncate(row.len() - start);
}
