//! Cases that stand in code.

use crate::answer::Answer;
use crate::fault::LineFault;
use std::alloc::{AllocError, Global};
use std::fmt;

/// Cases that stand in code: how many are right, and what came out of the others.
pub struct Checks {
    alloc: Global,
    right: usize,
    wrong: String,
    lacks_memory: bool,
}

// Written out, since a derived drop is proved anew, field by field, in each function that lets one go.
impl Drop for Checks {
    fn drop(self) {
        let Checks {
            alloc: _,
            right: _,
            wrong: _,
            lacks_memory: _,
        } = self;
    }
}

impl Checks {
    /// No case was tried.
    pub fn new(alloc: Global) -> Checks {
        Checks {
            alloc,
            right: 0,
            wrong: String::new(alloc),
            lacks_memory: false,
        }
    }

    /// Notes what came out of a case, and what was wanted.
    fn note<T: fmt::Debug>(&mut self, case: &str, told: &T, wanted: &T) -> Result<(), AllocError> {
        let text = format!(in self.alloc; "{case}: {told:?} for {wanted:?}")?;
        if !self.wrong.is_empty() {
            self.wrong.push_str("; ")?;
        }
        self.wrong.push_str(text.as_str())
    }

    /// Tries a case, which is right if what came out is what is wanted.
    pub fn same<T: PartialEq + fmt::Debug>(&mut self, case: &str, told: &T, wanted: &T) {
        if *told == *wanted {
            self.right = self.right.saturating_add(1);
        } else if self.note(case, told, wanted).is_err() {
            self.lacks_memory = true;
        }
    }

    /// Tries a case, which is right if it holds.
    pub fn holds(&mut self, case: &str, is_so: bool) {
        self.same(case, &is_so, &true);
    }

    /// Adds to an answer how many cases are right, and those that are not.
    pub fn say(&self, answer: &mut Answer) -> Result<(), LineFault> {
        if self.lacks_memory {
            return Err(LineFault::Memory(AllocError));
        }
        answer.say_count("right", self.right);
        if !self.wrong.is_empty() {
            answer.say(self.wrong.as_str(), &[]);
        }
        Ok(())
    }
}
