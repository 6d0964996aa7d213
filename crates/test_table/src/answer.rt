//! An answer as text.

use geom::Rect;
use pixel::Colour;
use std::alloc::{AllocError, Global};

/// An answer, part by part. If memory ran out it takes no more parts, and has no text.
pub struct Answer {
    alloc: Global,
    text: String,
    lacks_memory: bool,
}

// Written out, since a derived drop is proved anew, field by field, in each function that lets one go.
impl Drop for Answer {
    fn drop(self) {
        let Answer {
            alloc: _,
            text: _,
            lacks_memory: _,
        } = self;
    }
}

/// Adds words and numbers to a text, after a semicolon if it says something already.
fn push_part(
    alloc: Global,
    text: &mut String,
    words: &str,
    numbers: &[i64],
) -> Result<(), AllocError> {
    if !text.is_empty() {
        text.push_str("; ")?;
    }
    text.push_str(words)?;
    for number in numbers {
        text.push(' ')?;
        text.push_str(number.to_string(alloc)?.as_str())?;
    }
    Ok(())
}

impl Answer {
    /// No part.
    pub fn new(alloc: Global) -> Answer {
        Answer {
            alloc,
            text: String::new(alloc),
            lacks_memory: false,
        }
    }

    /// Adds a part: words, and numbers after them.
    pub fn say(&mut self, words: &str, numbers: &[i64]) {
        if !self.lacks_memory && push_part(self.alloc, &mut self.text, words, numbers).is_err() {
            self.lacks_memory = true;
        }
    }

    /// Adds how many there are.
    pub fn say_count(&mut self, words: &str, count: usize) {
        self.say(words, &[i64::try_from(count).unwrap_or(i64::MAX)]);
    }

    /// Adds a rect: its corner, its width and its height.
    pub fn say_rect(&mut self, words: &str, rect: Rect) {
        let (x, y, w, h) = (rect.x, rect.y, rect.w, rect.h);
        self.say(
            words,
            &[i64::from(x), i64::from(y), i64::from(w), i64::from(h)],
        );
    }

    /// Adds a colour: red, green, blue and alpha.
    pub fn say_colour(&mut self, words: &str, colour: Colour) {
        let (r, g, b, a) = (colour.r(), colour.g(), colour.b(), colour.a());
        self.say(
            words,
            &[i64::from(r), i64::from(g), i64::from(b), i64::from(a)],
        );
    }

    /// The text of all parts.
    pub fn text(&self) -> Result<&str, AllocError> {
        if self.lacks_memory {
            return Err(AllocError);
        }
        Ok(self.text.as_str())
    }
}
