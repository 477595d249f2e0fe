//! The forms that given forms can begin with.
//!
//! The search meets each form once, so it ends.

use crate::forms::Forms;
use crate::kinds::Kind;
use std::alloc::{AllocError, Global};

/// The forms met so far, each once, in the order of meeting.
#[derive(Drop)]
pub struct Met {
    marks: Vec<bool>,
    forms: Vec<usize>,
}

impl Met {
    /// No form met, in a file with this many forms. Fails where memory runs out.
    pub fn new(alloc: Global, count: usize) -> Result<Met, AllocError> {
        let marks = vec![in alloc; false; count]?;
        Ok(Met {
            marks,
            forms: Vec::new(alloc),
        })
    }

    /// Meets a form, unless it was met before.
    pub fn meet(&mut self, form: usize) -> Result<(), AllocError> {
        if form < self.marks.len() && !self.has(form) {
            self.marks[form] = true;
            self.forms.push(form)?;
        }
        Ok(())
    }

    /// Meets several forms.
    pub fn meet_all(&mut self, forms: &[usize]) -> Result<(), AllocError> {
        for form in forms {
            self.meet(*form)?;
        }
        Ok(())
    }

    /// Meets the parts up to and including the first that can't be empty. Answers whether all can be.
    pub(crate) fn meet_front(
        &mut self,
        forms: &Forms,
        parts: &[usize],
    ) -> Result<bool, AllocError> {
        for part in parts {
            self.meet(*part)?;
            if !forms.is_nullable(*part) {
                return Ok(false);
            }
        }
        Ok(true)
    }

    /// Meets the uses of the rule with this body.
    pub fn meet_uses(&mut self, forms: &Forms, body: usize) -> Result<(), AllocError> {
        let Some(rule) = forms.rule_with(body) else {
            return Ok(());
        };
        for form in 0..forms.count() {
            if forms.is_use(form, rule.name) {
                self.meet(form)?;
            }
        }
        Ok(())
    }

    /// Whether a form was met.
    pub fn has(&self, form: usize) -> bool {
        form < self.marks.len() && self.marks[form]
    }

    /// The form that was met with this number, counting from 0.
    pub fn get(&self, number: usize) -> Option<usize> {
        self.forms.get(number).copied()
    }

    /// The forms that were met.
    pub fn into_forms(self) -> Vec<usize> {
        self.forms
    }
}

/// These forms and all that they can begin with, also through rules, the nearest first. Fails where memory runs out.
pub fn leading(alloc: Global, forms: &Forms, first: &[usize]) -> Result<Vec<usize>, AllocError> {
    let mut met = Met::new(alloc, forms.count())?;
    met.meet_all(first)?;
    for number in 0..forms.count() {
        let Some(form) = met.get(number) else {
            break;
        };
        meet_fronts(forms, form, &mut met)?;
    }
    Ok(met.into_forms())
}

/// Meets the parts that a form can begin with, or the body of the rule that it names.
fn meet_fronts(forms: &Forms, form: usize, met: &mut Met) -> Result<(), AllocError> {
    if let Some(body) = forms.body(form) {
        return met.meet(body);
    }
    if forms.is(form, Kind::Choice) {
        return met.meet_all(forms.parts(form));
    }
    met.meet_front(forms, forms.parts(form))?;
    Ok(())
}
