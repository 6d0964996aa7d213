//! How many cases of a table are wrong.

/// How many answers of a table were compared, and how many of its cases are wrong.
#[derive(Clone, Copy)]
pub struct Tally {
    answers: usize,
    wrong: usize,
    /// The line of the first wrong case.
    first: Option<usize>,
}

impl Tally {
    /// No answer was compared, and no case is wrong.
    pub const NONE: Tally = Tally {
        answers: 0,
        wrong: 0,
        first: None,
    };

    /// Counts a wrong case that begins at this line.
    pub fn count_wrong(&mut self, line: usize) {
        self.wrong = self.wrong.saturating_add(1);
        if self.first.is_none() {
            self.first = Some(line);
        }
    }

    /// Counts the answer of a line, which is wrong if it is not the one that is wanted; both are told then.
    pub fn compare<R: Print>(&mut self, rt: &R, line: usize, told: &str, wanted: &str) {
        self.answers = self.answers.saturating_add(1);
        if told != wanted {
            let _ = rt.println(format_args!("line {line}: {told} for {wanted}"));
            self.count_wrong(line);
        }
    }

    /// The answers and the wrong cases of two tables, of which the other one stands below.
    pub fn and(self, other: Tally) -> Tally {
        Tally {
            answers: self.answers.saturating_add(other.answers),
            wrong: self.wrong.saturating_add(other.wrong),
            first: self.first.or(other.first),
        }
    }

    /// How many answers were compared.
    pub fn answers(&self) -> usize {
        self.answers
    }

    /// How many cases are wrong.
    pub fn wrong(&self) -> usize {
        self.wrong
    }

    /// The line of the first wrong case; None if all are right.
    pub fn first(&self) -> Option<usize> {
        self.first
    }
}
