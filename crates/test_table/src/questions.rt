//! Tables of questions.

use crate::answer::Answer;
use crate::fault::LineFault;
use crate::lines::Table;
use crate::tally::Tally;
use crate::values::key_and_value;
use std::alloc::Global;
use std::io;

/// What the questions of a table are about.
pub trait Subject {
    /// Takes the value of a line that asks nothing. Answers whether its key is that of such a line; none is, unless
    /// the subject says otherwise.
    fn take(&mut self, key: &str, value: &str) -> Result<bool, LineFault> {
        let _ = key;
        let _ = value;
        Ok(false)
    }

    /// Answers a question of a kind.
    fn ask(&self, kind: &str, question: &str, answer: &mut Answer) -> Result<(), LineFault>;
}

/// A table of questions about a subject. Its lines are `KEY: VALUE`: those that the subject takes, and questions with
/// the answers that are wanted, `KIND: QUESTION => ANSWER`. It tells how many answers there were.
#[derive(Drop)]
pub struct Questions<S> {
    alloc: Global,
    subject: S,
    tally: Tally,
}

impl<S: Subject> Questions<S> {
    /// No question was asked.
    pub fn new(alloc: Global, subject: S) -> Questions<S> {
        Questions {
            alloc,
            subject,
            tally: Tally::NONE,
        }
    }

    /// Takes a line with a question and the answer that is wanted: `KIND: QUESTION => ANSWER`.
    fn take_question<R: Print>(
        &mut self,
        rt: &R,
        line: usize,
        kind: &str,
        value: &str,
    ) -> Result<(), LineFault> {
        let Some((question, wanted)) = value.split_once("=> ") else {
            return Err(LineFault::NoForm);
        };
        let mut answer = Answer::new(self.alloc);
        self.subject.ask(kind, question.trim_end(), &mut answer)?;
        self.tally.compare(rt, line, answer.text()?, wanted);
        Ok(())
    }
}

impl<R: Print, S: Subject> Table<R> for Questions<S> {
    type Fault = LineFault;

    fn take(&mut self, rt: &R, line: usize, text: &str) -> Result<(), LineFault> {
        let Some((key, value)) = key_and_value(text) else {
            return Err(LineFault::NoForm);
        };
        if self.subject.take(key, value)? {
            return Ok(());
        }
        self.take_question(rt, line, key, value)
    }

    fn tally(&self) -> Tally {
        self.tally
    }

    fn tell(&self, rt: &R) -> io::Result<()> {
        println!(rt; "{} answers", self.tally.answers())
    }
}
