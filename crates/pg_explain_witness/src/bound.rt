//! The limit on what is tried.

/// How much more may be tried.
#[derive(Clone, Copy)]
pub struct Bound {
    /// How many more texts may be run.
    pub candidates: usize,
    /// How many more steps may be taken. Preparations count too: the tasks of drafts, and each node of the grammar for each run.
    pub steps: u64,
}

impl Bound {
    /// Whether nothing more may be tried.
    pub fn is_used_up(&self) -> bool {
        self.candidates == 0 || self.steps == 0
    }

    /// Uses up this many steps.
    pub(crate) fn take(&mut self, steps: u64) {
        self.steps = self.steps.saturating_sub(steps);
    }

    /// Uses up one text and this many steps.
    pub(crate) fn run(&mut self, steps: u64) {
        self.candidates = self.candidates.saturating_sub(1);
        self.take(steps);
    }
}
