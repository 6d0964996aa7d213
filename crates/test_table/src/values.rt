//! Lines and numbers as tables write them.

use crate::fault::LineFault;
use std::alloc::AllocError;

/// The key and the value of a line `KEY: VALUE`, or `KEY:` if the value is empty. None if the line has no key.
pub fn key_and_value(line: &str) -> Option<(&str, &str)> {
    if let Some(both) = line.split_once(": ") {
        return Some(both);
    }
    match line.strip_suffix(':') {
        Some(key) => Some((key, "")),
        None => None,
    }
}

/// Adds a word to a text, after a blank if it says something already.
pub fn push_word(text: &mut String, word: &str) -> Result<(), AllocError> {
    if !text.is_empty() {
        text.push(' ')?;
    }
    text.push_str(word)
}

/// The number of a word.
fn number_of(word: &str) -> Result<i64, LineFault> {
    match word.parse::<i64>() {
        Ok(number) => Ok(number),
        Err(_) => Err(LineFault::NoNumber),
    }
}

/// The numbers of a text, with blanks between. There have to be exactly the given number.
pub fn numbers<const N: usize>(text: &str) -> Result<[i64; N], LineFault> {
    let mut words = text.split_whitespace();
    let mut all = [0; N];
    for number in &mut all {
        let Some(word) = words.next() else {
            return Err(LineFault::NoNumber);
        };
        *number = number_of(word)?;
    }
    match words.next() {
        None => Ok(all),
        Some(_) => Err(LineFault::NoNumber),
    }
}

/// The numbers of a text, each from 0 to 2^32 - 1, with this sign between. There have to be exactly the given number.
pub fn wholes<const N: usize>(text: &str, between: char) -> Result<[u32; N], LineFault> {
    let mut words = text.split(between);
    let mut all = [0; N];
    for number in &mut all {
        let Some(word) = words.next() else {
            return Err(LineFault::NoNumber);
        };
        *number = whole(number_of(word)?)?;
    }
    match words.next() {
        None => Ok(all),
        Some(_) => Err(LineFault::NoNumber),
    }
}

/// A number from -2^31 to 2^31 - 1.
pub fn signed(number: i64) -> Result<i32, LineFault> {
    match i32::try_from(number) {
        Ok(number) => Ok(number),
        Err(_) => Err(LineFault::NoNumber),
    }
}

/// A number from 0 to 2^32 - 1.
pub fn whole(number: i64) -> Result<u32, LineFault> {
    match u32::try_from(number) {
        Ok(number) => Ok(number),
        Err(_) => Err(LineFault::NoNumber),
    }
}
