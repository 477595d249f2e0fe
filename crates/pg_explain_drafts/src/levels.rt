//! The beginnings of an alternative, as rules and forms at its front are opened step by step.

use crate::forms::Forms;
use crate::kinds::Kind;
use std::alloc::{AllocError, Global};

/// The most levels at which an alternative is looked at: first by itself, then with one more form opened on each.
pub const LEVELS: usize = 9;

/// The forms that replace an alternative, one after another.
#[derive(Drop)]
pub struct Level {
    pub parts: Vec<usize>,
    /// The uses of rules that were replaced by the rules' bodies.
    pub opened: Vec<usize>,
    /// A `build` that was left out.
    pub build: Option<usize>,
    /// Whether a form was left out that makes something of trees.
    pub tree_changes: bool,
}

impl Level {
    /// The alternative itself.
    pub fn new(alloc: Global, form: usize) -> Result<Level, AllocError> {
        let parts = vec![in alloc; form]?;
        Ok(Level {
            parts,
            opened: Vec::new(alloc),
            build: None,
            tree_changes: false,
        })
    }

    /// The alternative, opened until its first form is spelled like this; `None` if it never is. Opens forms that make something of trees only if `is_loose`.
    pub fn begun_with(
        alloc: Global,
        forms: &Forms,
        form: usize,
        spelling: &[char],
        is_loose: bool,
    ) -> Result<Option<Level>, AllocError> {
        let mut level = Level::new(alloc, form)?;
        for _ in 0..LEVELS {
            if let Some(first) = level.parts.first()
                && forms.spelling(*first) == spelling
            {
                return Ok(Some(level));
            }
            if !level.open(forms, is_loose)? {
                break;
            }
        }
        Ok(None)
    }

    /// Opens the first form. Answers whether that was possible: a form that makes something of trees is opened only if `is_loose`.
    pub fn open(&mut self, forms: &Forms, is_loose: bool) -> Result<bool, AllocError> {
        let Some(first) = self.parts.first().copied() else {
            return Ok(false);
        };
        if let Some(body) = forms.body(first) {
            self.opened.push(first)?;
            self.put(&[body])?;
            return Ok(true);
        }
        let is_maker = forms.is_among(first, &[Kind::Build, Kind::Text, Kind::Skip]);
        let is_plain = forms.is_among(first, &[Kind::Seq, Kind::Try, Kind::Label]);
        if !is_plain && !(is_loose && is_maker) {
            return Ok(false);
        }
        self.tree_changes = self.tree_changes || is_maker;
        if self.build.is_none() && forms.is(first, Kind::Build) {
            self.build = Some(first);
        }
        self.put(forms.parts(first))?;
        Ok(true)
    }

    /// Replaces the first form by these.
    fn put(&mut self, front: &[usize]) -> Result<(), AllocError> {
        if !self.parts.is_empty() {
            self.parts.remove(0);
        }
        for part in front.iter().rev() {
            self.parts.insert(0, *part)?;
        }
        Ok(())
    }
}
