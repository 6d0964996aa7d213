//! What a case says of the output.

use crate::bytes::{bytes_of, image_of};
use crate::fault::ProgramRowFault;
use std::alloc::{AllocError, Global};

/// How much of the output the bytes of a case are.
#[derive(Clone, Copy, PartialEq)]
enum Extent {
    /// The case says nothing of the output.
    Unsaid,
    /// All of it.
    Whole,
    /// Its beginning.
    Start,
    /// Its end.
    End,
    /// Nothing but its length and its sum are told.
    Sum { length: u64, sum: u64 },
}

/// What cuts the output short.
#[derive(Clone, Copy, PartialEq)]
pub enum Short {
    /// Nothing.
    Never,
    /// The sink takes no more than the given number of bytes.
    Room(u64),
    /// A put fails.
    Put,
}

/// What a case says of the output.
pub struct Output {
    extent: Extent,
    bytes: Vec<u8>,
}

// Written out, since a derived drop is proved anew, field by field, in each function that lets one go.
impl Drop for Output {
    fn drop(self) {
        let Output {
            extent: _,
            bytes: _,
        } = self;
    }
}

/// The 64-bit FNV-1a sum of bytes.
fn fnv(bytes: &[u8]) -> u64 {
    let mut sum = 0xcbf29ce484222325u64;
    for byte in bytes {
        sum = (sum ^ u64::from(*byte)).wrapping_mul(0x100000001b3);
    }
    sum
}

/// The length and the sum of a text `N SUM`, the sum in hexadecimal digits.
fn sum_of(text: &str) -> Option<Extent> {
    let Some((length, sum)) = text.split_once(' ') else {
        return None;
    };
    match (length.parse(), u64::from_str_radix(sum, 16)) {
        (Ok(length), Ok(sum)) => Some(Extent::Sum { length, sum }),
        _ => None,
    }
}

impl Output {
    /// Nothing is said.
    pub fn new(alloc: Global) -> Output {
        Output {
            extent: Extent::Unsaid,
            bytes: Vec::new(alloc),
        }
    }

    /// These bytes come next.
    fn add(&mut self, bytes: &[u8]) -> Result<(), AllocError> {
        if self.extent == Extent::Unsaid {
            self.extent = Extent::Whole;
        }
        self.bytes.extend_from_slice(bytes)
    }

    /// This line comes next; before the first and after the last, `...` represents anything.
    pub fn add_line(&mut self, line: &str) -> Result<(), ProgramRowFault> {
        if line == "..." {
            self.extent = match self.extent {
                Extent::Unsaid => Extent::End,
                _ => Extent::Start,
            };
            return Ok(());
        }
        self.add(line.as_bytes())?;
        Ok(self.add(b"\n")?)
    }

    /// These bytes come next, in hexadecimal digits.
    pub fn add_hex(&mut self, alloc: Global, text: &str) -> Result<(), ProgramRowFault> {
        let bytes = bytes_of(alloc, text)?;
        Ok(self.add(bytes.as_slice())?)
    }

    /// A picture comes next: its width, its height, and the colours of its pixels.
    pub fn add_image(&mut self, alloc: Global, text: &str) -> Result<(), ProgramRowFault> {
        let image = image_of(alloc, text)?;
        Ok(self.add(image.as_slice())?)
    }

    /// The output has this length and this sum: `N SUM`, the sum in hexadecimal digits.
    pub fn set_sum(&mut self, text: &str) -> Result<(), ProgramRowFault> {
        match sum_of(text) {
            Some(extent) => self.extent = extent,
            None => return Err(ProgramRowFault::NoNumber),
        }
        Ok(())
    }

    /// Whether the whole output was cut in this way to what the sink holds.
    fn is_cut_to(&self, held: &[u8], short: Short) -> bool {
        let whole = self.bytes.as_slice();
        match short {
            Short::Never => held == whole,
            Short::Room(room) => {
                let taken = whole.len() as u64;
                whole.starts_with(held) && held.len() as u64 == taken.min(room)
            }
            Short::Put => whole.starts_with(held) && held.len() < whole.len(),
        }
    }

    /// Whether the sink holds the beginning, and is full if it has no more room.
    fn begins(&self, held: &[u8], short: Short) -> bool {
        let is_cut = match short {
            Short::Room(room) => held.len() as u64 == room,
            _ => true,
        };
        is_cut && held.starts_with(self.bytes.as_slice())
    }

    /// Whether something is said.
    pub fn is_said(&self) -> bool {
        self.extent != Extent::Unsaid
    }

    /// Whether the sink of a run may hold these bytes; none if nothing is said.
    pub fn fits(&self, held: &[u8], short: Short) -> bool {
        match self.extent {
            Extent::Unsaid => held.is_empty(),
            Extent::Whole => self.is_cut_to(held, short),
            Extent::Start => self.begins(held, short),
            Extent::End => held.ends_with(self.bytes.as_slice()),
            Extent::Sum { length, sum } => held.len() as u64 == length && fnv(held) == sum,
        }
    }
}
