//! One block of raw memory: places side by side, each empty or with a value.

ghost use Rattle.std.specs.Prelude.{◌≡◌, ℕ, ◌<◌, List, Option, Some, None, length, replicate, get_or, slice_set, IfOk, ⊤};
ghost use Rattle.std.specs.Vec.Ownership.{FitsInBlock};
ghost use base.Fml.{ftrue};
ghost use denote.RawPtr.{Ptr};
ghost use Rattle.node_chain.specs.Ownership.{permits, places_lent, places_owned};
ghost use Rattle.node_chain.specs.Raw.{HoldsValue};

use std::alloc::{AllocError, Allocator};
use std::marker::{Model, PhantomData};
use std::mem::{align_of, size_of};

/// Where a block begins. It owns nothing.
pub struct Origin<T> {
    ptr: *mut T,
}

impl<T> Clone for Origin<T> {
    ghost is_clone = { λ x y. y ≡ x };

    ghost is_infallible = { λ _. ⊤ };

    fn clone(&self) -> Result<Origin<T>, AllocError> {
        Ok(*self)
    }
}

impl<T> Copy for Origin<T> {}

/// The owner of a block's places. It takes no bytes.
pub struct Places<T> {
    mark: PhantomData<*const T>,
    ghost at: { Ptr },
    ghost held: { List (Option T) },
}

impl<T> Model for Places<T> {
    ghost also_owns = { λ p. places_owned T.row p.at p.held };

    ghost also_shares = { λ p _ κ. places_lent T.row p.at p.held κ };
}

/// The right to give a block of `count` places at `at` back to `alloc`. It takes no bytes.
pub struct Permit<T, A: Allocator> {
    mark: PhantomData<*const (T, A)>,
    ghost at: { Ptr },
    ghost count: { ℕ },
    ghost alloc: { A },
}

impl<T, A: Allocator> Model for Permit<T, A> {
    ghost also_owns = { λ p. permits T.row (A.dealloc_token p.alloc) p.at p.count };

    ghost also_shares = { λ _ _ _. ftrue };
}

/// Takes a block of this many empty places.
pub(crate) fn make_block<T, A: Allocator>(
    alloc: &A,
    count: usize,
) -> Result<(Origin<T>, Places<T>, Permit<T, A>), AllocError>
    requires { FitsInBlock T.row count }
    ensures places { IfOk result (λ made. made.1.at ≡ made.0.ptr) }
    ensures empty { IfOk result (λ made. made.1.held ≡ replicate count None) }
    ensures permit { IfOk result (λ made. made.2.at ≡ made.0.ptr) }
    ensures count { IfOk result (λ made. made.2.count ≡ count) }
    ensures alloc { IfOk result (λ made. made.2.alloc ≡ alloc.now) }
{
    match alloc.allocate(count * size_of::<T>(), align_of::<T>()) {
        Ok(block) => {
            let origin = Origin {
                ptr: block as *mut T,
            };
            Ok((
                origin,
                Places { mark: PhantomData },
                Permit { mark: PhantomData },
            ))
        }
        Err(error) => Err(error),
    }
}

/// Gives a block back. What its places hold is forgotten.
pub(crate) fn give_back<T, A: Allocator>(
    alloc: &A,
    origin: Origin<T>,
    count: usize,
    places: Places<T>,
    permit: Permit<T, A>,
)
    requires places { places.at ≡ origin.ptr }
    requires all { length places.held ≡ count }
    requires permit { permit.at ≡ origin.ptr }
    requires count { permit.count ≡ count }
    requires alloc { permit.alloc ≡ alloc.now }
{
    let Places { mark: _ } = places;
    let Permit { mark: _ } = permit;
    unsafe {
        alloc.deallocate(
            origin.ptr as *mut u8,
            count * size_of::<T>(),
            align_of::<T>(),
        );
    }
}

impl<T> Places<T> {
    /// The value at a place.
    pub(crate) fn value(&self, origin: Origin<T>, place: usize) -> &T
        requires block { origin.ptr ≡ self.now.at }
        requires held { HoldsValue self.now.held place }
        ensures { get_or self.now.held place None ≡ Some result.now }
    {
        unsafe { &*origin.ptr.add(place) }
    }

    /// Puts a value into a place. What was there is forgotten.
    pub(crate) fn put(&mut self, origin: Origin<T>, place: usize, value: T)
        requires block { origin.ptr ≡ self.old.at }
        requires place { place < length self.old.held }
        ensures block { self.new.at ≡ self.old.at }
        ensures held { self.new.held ≡ slice_set self.old.held place (Some value) }
    {
        unsafe { origin.ptr.add(place).write(value) }
    }
}
