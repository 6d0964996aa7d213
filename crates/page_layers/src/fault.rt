//! Why a command is refused.

ghost use Rattle.std.specs.Prelude.{◌≡◌};

use std::alloc::AllocError;

/// Why a command is refused. If several faults apply, the answer is the first of them in this order.
#[derive(Clone, Copy, PartialEq, Eq, Debug)]
pub enum EditFault {
    /// The layer or node to be changed is not there, or a named one is neither 0 nor there.
    UnknownId,
    /// The id of an added node is taken in its family, or that of an added layer was ever used.
    IdUsed,
    /// A place past the end of the layer list or of a display list.
    BadPlace,
    /// One more than the tree, the family or the display list may hold.
    TooMany {
        /// How many it may hold: 64 layers, 256 nodes of a family, 256 items.
        limit: u32,
    },
    /// A value outside its range: the first such of the command's fields in their order.
    OutOfRange {
        /// The value.
        value: i64,
        /// The end of the range that it passes.
        limit: i64,
    },
    /// The layers of some effect, with those of the effects below it, would not stand together.
    NotNested,
}

/// Why a command was not applied. The tree is then as it was.
#[derive(Clone, Copy, PartialEq, Eq, Debug)]
pub enum EditError {
    /// The command has this fault in this tree.
    Refused(EditFault),
    /// Memory ran out.
    Memory(AllocError),
}

impl From<AllocError> for EditError {
    ghost use Rattle.page_layers.specs.declared.fault.EditError.TheVariants as error;

    ghost from_gives = { λ e r. r ≡ error.Memory e };

    fn from(e: AllocError) -> EditError {
        EditError::Memory(e)
    }
}

impl From<EditFault> for EditError {
    ghost use Rattle.page_layers.specs.declared.fault.EditError.TheVariants as error;

    ghost from_gives = { λ f r. r ≡ error.Refused f };

    fn from(fault: EditFault) -> EditError {
        EditError::Refused(fault)
    }
}
