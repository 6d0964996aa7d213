//! Which cases of a table are tried.

use std::{env, io};

/// The cases that are tried: those whose titles have one of some words, or all if there are no words.
pub struct Titles {
    words: Vec<String>,
}

// Written out, since a derived drop is proved anew, field by field, in each function that lets one go.
impl Drop for Titles {
    fn drop(self) {
        let Titles { words: _ } = self;
    }
}

impl Titles {
    /// The cases that the program's words pick. An error is a word that is no text, or out of memory.
    pub fn of_words(rt: &HostRuntime) -> io::Result<Titles> {
        let words: Vec<String> = env::args(rt)?.skip(1).collect(rt.alloc())?;
        Ok(Titles { words })
    }

    /// Whether the case of this title is tried.
    pub fn has(&self, title: &str) -> bool {
        for word in self.words.iter() {
            if title.contains(word.as_str()) {
                return true;
            }
        }
        self.words.is_empty()
    }
}
