//! The steps of a way, one after another in a line.
//!
//! Of a long way, only the first and last steps are shown, and how many are between.

use pg_explain_context::{Known, push_position};
use std::alloc::{AllocError, Global};

/// How many steps of a long way are shown at its front.
const FRONT: usize = 8;

/// How many are shown at its end.
const END: usize = 4;

/// A step, and whether the next one continues its sentence.
#[derive(Drop)]
struct Step {
    words: String,
    is_lead: bool,
}

/// The steps so far, and the place that was shown last.
#[derive(Drop)]
pub(crate) struct Steps {
    steps: Vec<Step>,
    last: Option<usize>,
}

impl Steps {
    /// No steps.
    pub(crate) fn new(alloc: Global) -> Steps {
        Steps {
            steps: Vec::new(alloc),
            last: None,
        }
    }

    /// Adds a step.
    pub(crate) fn tell(&mut self, words: String) -> Result<(), AllocError> {
        self.steps.push(Step {
            words,
            is_lead: false,
        })?;
        Ok(())
    }

    /// Adds a step whose sentence the next one continues.
    pub(crate) fn lead(&mut self, words: String) -> Result<(), AllocError> {
        self.steps.push(Step {
            words,
            is_lead: true,
        })?;
        Ok(())
    }

    /// Adds a step with its place in the file, unless that place was shown last.
    pub(crate) fn tell_at(
        &mut self,
        alloc: Global,
        known: &Known,
        words: String,
        place: usize,
    ) -> Result<(), AllocError> {
        let mut words = words;
        if self.last != Some(place) {
            push_position(alloc, &mut words, known, place)?;
        }
        self.last = Some(place);
        self.tell(words)
    }

    /// The line.
    pub(crate) fn text(&self, alloc: Global) -> Result<String, AllocError> {
        let left_out = self.steps.len().saturating_sub(FRONT.saturating_add(END));
        let mut text = String::new(alloc);
        let mut joint = "";
        for (number, step) in self.steps.iter().enumerate() {
            if number < FRONT || number >= FRONT.saturating_add(left_out) {
                text.push_str(joint)?;
                text.push_str(step.words.as_str())?;
                joint = if step.is_lead { " " } else { ", " };
            } else if number == FRONT {
                let words = if left_out == 1 { "step" } else { "steps" };
                let more = format!(in alloc; "{joint}{left_out} more {words}")?;
                text.push_str(more.as_str())?;
                joint = ", ";
            }
        }
        Ok(text)
    }
}
