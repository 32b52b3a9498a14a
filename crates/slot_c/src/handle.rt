//! The handle of an executive, as other languages keep it.

ghost use Rattle.std.specs.Prelude.{◌≡◌, Bool, true, false};
ghost use Rattle.slot_core.specs.Keeping.Executives.{Executive};
ghost use Rattle.slot_c.specs.Handles.{owned_where};

use crate::box_parts::BoxParts;
use crate::unit::Unit;
use std::alloc::Global;
use std::marker::Model;
use std::mem;
use std::ptr::null_mut;

/// An executive with its list behind a pointer, or none. It owns them where they are there.
#[repr(C)]
#[derive(Drop)]
pub struct Handle {
    at: *mut (),
    alloc: Global,
    pub ghost there: { Bool },
    pub ghost value: { Executive },
}

impl Model for Handle {
    ghost also_owns = { λ h. owned_where h.there h.alloc h.at h.value };
}

impl Handle {
    /// A handle with no executive.
    fn closed(alloc: Global) -> Handle
        ensures { result.there ≡ false }
    {
        Handle {
            at: null_mut(),
            alloc,
        }
    }

    /// A handle of what is in these parts.
    fn of_parts(parts: BoxParts<Unit, Global>) -> Handle
        ensures { (result.there ≡ true) × (result.value ≡ parts.value) }
    {
        let BoxParts { at, alloc } = parts;
        Handle {
            at: at as *mut (),
            alloc,
        }
    }

    /// The parts of what is there.
    fn into_parts(self) -> BoxParts<Unit, Global>
        requires { self.there ≡ true }
        ensures { result.value ≡ self.value }
    {
        let Handle { at, alloc } = self;
        BoxParts {
            at: at as *mut Unit,
            alloc,
        }
    }
}

/// What a caller keeps: whether there is an executive, and its handle. All zero is none.
#[repr(C)]
#[derive(Drop)]
pub struct Slots {
    pub open: bool,
    pub handle: Handle,
}

impl Slots {
    /// No executive.
    pub(crate) fn closed(alloc: Global) -> Slots
        ensures closed { result.open ≡ false }
        ensures valid { result.open ≡ result.handle.there }
    {
        Slots {
            open: false,
            handle: Handle::closed(alloc),
        }
    }

    /// This unit.
    pub(crate) fn opened(unit: Box<Unit>) -> Slots
        ensures open { result.open ≡ true }
        ensures valid { result.open ≡ result.handle.there }
        ensures value { result.handle.value ≡ unit.value }
    {
        Slots {
            open: true,
            handle: Handle::of_parts(BoxParts::of(unit)),
        }
    }

    /// The unit, which is taken out.
    pub(crate) fn take(&mut self, alloc: Global) -> Box<Unit>
        requires open { self.old.open ≡ true }
        requires valid { self.old.open ≡ self.old.handle.there }
        ensures value { result.value ≡ self.old.handle.value }
        ensures closed { self.new.open ≡ false }
        ensures valid { self.new.open ≡ self.new.handle.there }
    {
        let full = mem::replace(self, Slots::closed(alloc));
        full.handle.into_parts().into_box()
    }
}
