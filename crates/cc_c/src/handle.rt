//! Handles: what C keeps of a compositor, which is a pointer.

ghost use Rattle.std.specs.Prelude.{◌≡◌, Option, Some, None};
ghost use Rattle.std.specs.Option.{MatchOption};
ghost use Rattle.std.specs.Coded.{coded_option};
ghost use Rattle.cc_c.specs.declared.held.Held.{Held};
ghost use Rattle.cc_c.specs.contracts.held.Held.{the_row};

use crate::box_parts::BoxParts;
use crate::held::Held;
use std::alloc::Global;
use std::marker::Model;
use std::mem::replace;
use std::ptr::null_mut;

/// A compositor in memory of its own; or none, and the pointer is then null. C keeps it, and lends it to one call at
/// a time.
#[repr(C)]
pub struct Handle {
    at: *mut u8,
    // It takes no bytes, so C sees the pointer alone.
    alloc: Global,
    ghost value: { Option Held } by { coded_option the_row.coded },
}

impl Model for Handle {
    ghost use Rattle.std.specs.contracts.impls.GlobalAllocator.TheImpl.{ghosts};
    ghost use Rattle.cc_c.specs.contracts.held.Held.{the_row};
    ghost use Rattle.cc_c.specs.Handles.{kept};

    ghost also_owns = { λ h. kept (ghosts.dealloc_token h.alloc) the_row h.at h.value };
}

impl Handle {
    // A handle of no compositor.
    fn empty(alloc: Global) -> Handle
        ensures { result.value ≡ None }
    {
        Handle {
            at: null_mut(),
            alloc,
        }
    }

    // A handle of the compositor in a box.
    fn closed(parts: BoxParts<Held, Global>) -> Handle
        ensures { result.value ≡ Some parts.value }
    {
        let BoxParts { at, alloc } = parts;
        Handle {
            at: at as *mut u8,
            alloc,
        }
    }

    // What a box of the compositor was made of; None exactly if there is none.
    fn opened(self) -> Option<BoxParts<Held, Global>>
        ensures { MatchOption result (self.value ≡ None) (λ parts. self.value ≡ Some parts.value) }
    {
        let Handle { at, alloc } = self;
        if at.is_null() {
            None
        } else {
            Some(BoxParts {
                at: at as *mut Held,
                alloc,
            })
        }
    }

    // The box of the compositor; None exactly if there is none.
    fn into_box(self) -> Option<Box<Held>>
        ensures { MatchOption result (self.value ≡ None) (λ held. self.value ≡ Some held.value) }
    {
        match self.opened() {
            Some(parts) => Some(parts.into_box()),
            None => None,
        }
    }

    /// Takes the compositor out of the handle, which has none then; None exactly if it had none.
    pub(crate) fn take(&mut self, alloc: Global) -> Option<Box<Held>>
        ensures taken { MatchOption result (self.old.value ≡ None) (λ held. self.old.value ≡ Some held.value) }
        ensures none { self.new.value ≡ None }
    {
        replace(self, Handle::empty(alloc)).into_box()
    }

    /// Puts a compositor into the handle. One that was there ends.
    pub(crate) fn put(&mut self, held: Box<Held>)
        ensures { self.new.value ≡ Some held.value }
    {
        drop(replace(self, Handle::closed(BoxParts::of(held))).into_box());
    }
}
