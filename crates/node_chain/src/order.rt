//! Items in order, each found by how many stand before it.

ghost use Rattle.std.specs.Prelude.{◌≡◌, ℕ, ◌+◌, ◌≤◌, ◌<◌, [], ◌∷◌, ◌++◌, drop, insert, length, Some, IfOk, slice_get, slice_set};

use crate::chain::NodeId;
use crate::front;
use slot_core::Memory;
use std::alloc::Global;
use std::marker::Model;

/// Items in order, in places that are reserved once. Items that were taken from the front stay
/// before the others until their places are wanted.
#[derive(Drop)]
pub struct Order<T> {
    row: Vec<T>,
    head: usize,
}

impl<T> Model for Order<T> {
    ghost use Rattle.std.specs.Prelude.{◌≤◌, drop, vec_capacity, vec_len};
    ghost use Rattle.node_chain.specs.Orders.{OrderParts};

    ghost Value = { OrderParts T };

    ghost view = { λ o. record { items = drop o.head o.row.items; places = vec_capacity o.row } };

    ghost invariant = { λ o. o.head ≤ vec_len o.row };
}

impl<T: Copy + Drop> Order<T> {
    /// No items, and places for this many.
    pub fn with_capacity(alloc: Global, places: u32) -> Result<Order<T>, Memory>
        ensures empty { IfOk result (λ made. made.items ≡ []) }
        ensures places { IfOk result (λ made. places ≤ made.places) }
    {
        Ok(Order {
            row: Vec::with_capacity(alloc, places as usize)?,
            head: 0,
        })
    }

    /// How many items there are.
    pub fn len(&self) -> usize
        ensures { result ≡ length self.now.items }
    {
        self.row.len() - self.head
    }

    /// The item at an index.
    pub fn at(&self, index: u32) -> T
        requires { index < length self.now.items }
        ensures { slice_get self.now.items index ≡ Some result }
    {
        self.row[self.head + index as usize]
    }

    /// The items.
    pub fn items(&self) -> &[T]
        ensures { result.now ≡ self.now.items }
    {
        &self.row.as_slice()[self.head..]
    }

    /// Puts another item at an index.
    pub fn set(&mut self, index: u32, item: T)
        requires { index < length self.old.items }
        ensures items { self.new.items ≡ slice_set self.old.items index item }
        ensures places { self.new.places ≡ self.old.places }
    {
        self.row[self.head + index as usize] = item;
    }

    /// Puts an item in at an index, where there is a place for it.
    pub fn insert(&mut self, index: usize, item: T)
        requires within { index ≤ length self.old.items }
        requires room { length self.old.items < self.old.places }
        ensures items { self.new.items ≡ insert self.old.items index item }
        ensures places { self.old.places ≤ self.new.places }
    {
        self.head = front::insert(&mut self.row, self.head, index, item);
    }

    /// Appends an item, where there is a place for it.
    pub fn push(&mut self, item: T)
        requires { length self.old.items < self.old.places }
        ensures items { self.new.items ≡ self.old.items ++ item ∷ [] }
        ensures places { self.old.places ≤ self.new.places }
    {
        if self.row.len() == self.row.capacity() {
            front::drop_front(&mut self.row, self.head);
            self.head = 0;
        }
        self.row.push_reserved(item);
    }

    /// Takes the first item away.
    pub fn pop_front(&mut self)
        requires { 0 < length self.old.items }
        ensures items { self.new.items ≡ drop 1 self.old.items }
        ensures places { self.new.places ≡ self.old.places }
    {
        self.head += 1;
    }
}

impl Order<NodeId> {
    /// The index of an id: one at which it stands.
    pub(crate) fn index_of(&self, id: NodeId) -> usize
        requires { (i : ℕ) × (slice_get self.now.items i ≡ Some id) }
        ensures { slice_get self.now.items result ≡ Some id }
    {
        let ids = self.items();
        for index in 0..ids.len() {
            if ids[index] == id {
                return index;
            }
        }
        unreachable!()
    }
}
