//! A fault as C sees it.

ghost use Rattle.std.specs.Prelude.{◌≡◌, pos};
ghost use Rattle.cc_c.specs.Faults.{count_of, tells_fault, tells_bad};

use crate::bad_numbers::BadNumbers;
use page_display_list::BitmapCause;
use page_layers::EditFault;

/// Why an edit is refused, or its numbers mean no command.
#[repr(C)]
pub struct Fault {
    /// Which fault it is: 1 to 6, in the order of `EditFault`; 7 to 12 if the numbers mean no command.
    pub why: u32,
    /// Of a field below 0, its place, from 0; else 0.
    pub field: u32,
    /// Of a value outside its range, the value; of numbers that mean no command, what was given; else 0.
    pub value: i64,
    /// Of a value outside its range, the end that it passes; of too many, how many there may be; of a wrong count, the
    /// right one; else 0.
    pub limit: i64,
}

/// Tells the fault of a command that a page refuses.
pub fn tell(to: &mut Fault, fault: EditFault)
    ensures { to.new ≡ tells_fault fault }
{
    match fault {
        EditFault::UnknownId => fill(to, 1, 0, 0, 0),
        EditFault::IdUsed => fill(to, 2, 0, 0, 0),
        EditFault::BadPlace => fill(to, 3, 0, 0, 0),
        EditFault::TooMany { limit } => fill(to, 4, 0, 0, limit as i64),
        EditFault::OutOfRange { value, limit } => fill(to, 5, 0, value, limit),
        EditFault::NotNested => fill(to, 6, 0, 0, 0),
    }
}

/// Tells why numbers mean no command.
pub fn tell_bad(to: &mut Fault, cause: BadNumbers)
    ensures { to.new ≡ tells_bad cause }
{
    match cause {
        BadNumbers::NoCommand { op } => fill(to, 7, 0, op as i64, 0),
        BadNumbers::Count { given, wanted } => fill(to, 8, 0, count_of(given), count_of(wanted)),
        BadNumbers::BelowZero { field, value } => fill(to, 9, field, value as i64, 0),
        BadNumbers::Colour => fill(to, 10, 0, 0, 0),
        BadNumbers::Bitmap(BitmapCause::Pixel { place }) => fill(to, 10, 0, count_of(place), 0),
        BadNumbers::Bitmap(BitmapCause::Side) => fill(to, 11, 0, 0, 0),
        BadNumbers::Bitmap(BitmapCause::Length { given, wanted }) => {
            fill(to, 12, 0, count_of(given), count_of(wanted))
        }
    }
}

// A count as C gets it: at most 2^63 - 1.
fn count_of(n: usize) -> i64
    ensures { result ≡ count_of n }
{
    n.min(9223372036854775807) as i64
}

// Writes a fault.
fn fill(to: &mut Fault, why: u32, field: u32, value: i64, limit: i64)
    ensures { to.new ≡ record { why = why; field = field; value = value; limit = limit } }
{
    to.why = why;
    to.field = field;
    to.value = value;
    to.limit = limit;
}
