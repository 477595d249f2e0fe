//! How many cases passed.

use pg_corpus_judging::Trial;
use std::fmt;

/// How many cases passed, and how many didn't.
#[derive(Clone, Copy)]
pub struct Sum {
    pub passed: usize,
    pub failed: usize,
}

impl Sum {
    /// The sum of no cases.
    pub fn new() -> Sum {
        Sum {
            passed: 0,
            failed: 0,
        }
    }

    /// Counts a case. One that can't be tried has failed.
    pub fn count(&mut self, trial: &Trial) {
        match trial {
            Trial::Passed => self.passed = self.passed.saturating_add(1),
            Trial::Failed(_) | Trial::Untried(_) => self.failed = self.failed.saturating_add(1),
        }
    }
}

impl fmt::Display for Sum {
    fn fmt<W: fmt::Write>(&self, f: &mut fmt::Formatter<W>) -> fmt::Result {
        let Sum { passed, failed } = *self;
        write!(f, "{passed} passed, {failed} failed")
    }
}
