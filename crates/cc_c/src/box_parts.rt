//! A box of the heap, taken apart into its pointer and its allocator, and made again.
//!
//! Code that is not Rattle can keep a pointer, and nothing else of a box. `BoxParts` owns what the box owned while
//! the pointer is away, and `into_box` makes the box again, with the same value.

ghost use Rattle.std.specs.Prelude.{◌≡◌};
ghost use Rattle.std_alloc.specs.Box.Ownership.{box_owns};

use std::alloc::Allocator;
use std::marker::Model;

/// What a box is made of. It owns the value as the box did.
pub struct BoxParts<T, A: Allocator> {
    /// Where the value is.
    pub at: *mut T,
    /// Whose memory that is.
    pub alloc: A,
    pub ghost value: { T },
}

impl<T, A: Allocator> Model for BoxParts<T, A> {
    ghost also_owns = { λ l. box_owns (A.dealloc_token l.alloc) T.row l.at l.value };
}

impl<T: Drop, A: Allocator> BoxParts<T, A> {
    /// The parts of a box, with the same value.
    pub fn of(owner: Box<T, A>) -> BoxParts<T, A>
        ensures { result.value ≡ owner.value }
    {
        let (at, alloc) = Box::into_raw_with_allocator(owner);
        BoxParts { at, alloc }
    }

    /// The box, with the same value.
    pub fn into_box(self) -> Box<T, A>
        ensures { result.value ≡ self.value }
    {
        let BoxParts { at, alloc } = self;
        unsafe { Box::from_raw(alloc, at) }
    }
}
