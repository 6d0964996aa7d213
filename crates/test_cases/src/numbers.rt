//! Numbers and ranges of numbers as the table writes them.

use crate::fault::ProgramRowFault;
use std::str::FromStr;

/// The numbers from `start` on and below `end`.
#[derive(Clone, Copy)]
pub struct Numbers {
    /// The first one.
    pub start: u64,
    /// The one after the last.
    pub end: u64,
}

impl Numbers {
    /// The number 0 alone.
    pub const ZERO: Numbers = Numbers { start: 0, end: 1 };

    /// `A..B`, or one number alone.
    pub fn of_text(text: &str) -> Result<Numbers, ProgramRowFault> {
        if let Some((start, end)) = text.split_once("..") {
            let (start, end) = (number(start)?, number(end)?);
            return Ok(Numbers { start, end });
        }
        let start: u64 = number(text)?;
        let end = start.saturating_add(1);
        Ok(Numbers { start, end })
    }
}

/// A number in digits, within the range of its type.
pub(crate) fn number<T: FromStr>(text: &str) -> Result<T, ProgramRowFault>
where
    T::Err: Drop,
{
    match text.parse() {
        Ok(number) => Ok(number),
        Err(_) => Err(ProgramRowFault::NoNumber),
    }
}
