//! The place of a script's first fault, and why a script can't be read.

ghost use Rattle.std.specs.Prelude.{◌≡◌};
ghost use Rattle.script_json.specs.declared.fault.Stop.TheVariants as stop;

use std::alloc::AllocError;

/// Where a script is at fault.
#[derive(Clone, Copy, PartialEq, Eq, Debug)]
pub struct ShapeFault {
    /// 0 for the top object, 1 for the inputs, `2 + k` for main frame k.
    pub list: u32,
    /// The place in that list; 0 for the top object.
    pub index: u32,
    /// The number of the field: 0 for the value itself or its `op`, 98 for a main frame that is no
    /// list, 99 for a further field.
    pub field: u32,
}

/// Why bytes are not the parts of a script.
#[derive(Clone, Copy, PartialEq, Eq, Debug)]
pub enum PartsFault {
    /// The bytes are no JSON.
    Json,
    /// The value is no script: the place of its first fault.
    Shape(ShapeFault),
    /// There was no memory.
    Memory(AllocError),
}

/// Why the reading of a value stopped.
#[derive(Clone, Copy)]
pub(crate) enum Stop {
    /// The value is at fault.
    Fault(ShapeFault),
    /// There was no memory.
    Memory(AllocError),
}

impl From<ShapeFault> for Stop {
    ghost from_gives = { λ f e. e ≡ stop.Fault f };

    fn from(fault: ShapeFault) -> Stop {
        Stop::Fault(fault)
    }
}

impl From<AllocError> for Stop {
    ghost from_gives = { λ x e. e ≡ stop.Memory x };

    fn from(refused: AllocError) -> Stop {
        Stop::Memory(refused)
    }
}
