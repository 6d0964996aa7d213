//! The place of a fault within one value.

ghost use Rattle.std.specs.Prelude.{◌≡◌};
ghost use Rattle.script_fields.specs.declared.fault.Trouble.TheVariants as trouble;

use std::alloc::AllocError;

/// A value that is not of its form.
#[derive(Clone, Copy, PartialEq, Eq, Debug)]
pub struct FieldFault {
    /// The number of the field at fault: 0 for the value itself or its `op`, 99 for a further field.
    pub field: u32,
}

/// Why a reader that takes memory stopped.
#[derive(Clone, Copy, PartialEq, Eq, Debug)]
pub enum Trouble {
    /// The value is not of its form.
    Fault(FieldFault),
    /// There was no memory.
    Memory(AllocError),
}

impl From<FieldFault> for Trouble {
    ghost from_gives = { λ f e. e ≡ trouble.Fault f };

    fn from(fault: FieldFault) -> Trouble {
        Trouble::Fault(fault)
    }
}

impl From<AllocError> for Trouble {
    ghost from_gives = { λ x e. e ≡ trouble.Memory x };

    fn from(refused: AllocError) -> Trouble {
        Trouble::Memory(refused)
    }
}
