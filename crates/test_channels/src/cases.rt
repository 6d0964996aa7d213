//! The cases that were begun, each with what it saw.

use std::alloc::{AllocError, Global};
use std::fmt;
use test_table::{Answer, Checks, LineFault};

/// A case that was begun, with what it saw.
struct Case {
    name: &'static str,
    checks: Checks,
}

// Written out, since a derived drop is proved anew, field by field, in each function that lets one go.
impl Drop for Case {
    fn drop(self) {
        let Case { name: _, checks: _ } = self;
    }
}

/// The cases that were begun. Each gives its name, which rows have for it, as it begins.
pub struct Cases {
    alloc: Global,
    begun: Vec<Case>,
    lacks_memory: bool,
}

// Written out, since a derived drop is proved anew, field by field, in each function that lets one go.
impl Drop for Cases {
    fn drop(self) {
        let Cases {
            alloc: _,
            begun: _,
            lacks_memory: _,
        } = self;
    }
}

impl Cases {
    /// No case was begun.
    pub fn new(alloc: Global) -> Cases {
        Cases {
            alloc,
            begun: Vec::new(alloc),
            lacks_memory: false,
        }
    }

    /// Begins a case: what is tried from here on is tried for it.
    pub fn begin(&mut self, name: &'static str) {
        let checks = Checks::new(self.alloc);
        if self.begun.push(Case { name, checks }).is_err() {
            self.lacks_memory = true;
        }
    }

    /// Tries what came out, which is right if it is what is wanted.
    pub fn same<T: PartialEq + fmt::Debug>(&mut self, what: &str, told: &T, wanted: &T) {
        match self.begun.last_mut() {
            Some(case) => case.checks.same(what, told, wanted),
            None => self.lacks_memory = true,
        }
    }

    /// Tries what is right if it holds.
    pub fn holds(&mut self, what: &str, is_so: bool) {
        self.same(what, &is_so, &true);
    }

    /// Adds to an answer how much of the case of a name is right, and what is not. An error means that no case has
    /// this name, or that memory ran out.
    pub fn say(&self, name: &str, answer: &mut Answer) -> Result<(), LineFault> {
        if self.lacks_memory {
            return Err(LineFault::Memory(AllocError));
        }
        for case in self.begun.iter() {
            if case.name == name {
                return case.checks.say(answer);
            }
        }
        Err(LineFault::NoForm)
    }
}
