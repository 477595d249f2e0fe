//! A short text that definitions compare: the label of a node, or the name of a predicate or a builder.
//!
//! Contracts see it as its bytes in UTF-8, as in trees. It is a type of its own so that definitions can compare what
//! contains labels and names, as shapes and grammars do.

ghost use Rattle.std.specs.Prelude.{◌≡◌, ◌↔◌, string_bytes, IfOk, IsTrue};

use std::alloc::{AllocError, Global};
use std::marker::Model;

/// A label or a name, in memory of its own.
#[derive(Debug, Drop)]
pub struct Label {
    text: String,
}

impl Model for Label {
    ghost use Rattle.std.specs.Prelude.{ℕ, List, string_bytes};

    ghost Value = { List ℕ };

    ghost view = { λ label. string_bytes label.text };
}

impl Label {
    /// The label with this text. It takes no memory.
    pub fn new(text: String) -> Label
        ensures { result ≡ string_bytes text }
    {
        Label { text }
    }

    /// The text.
    pub fn as_str(&self) -> &str
        ensures { result.now ≡ self.now }
    {
        self.text.as_str()
    }

    /// An equal label in memory of its own.
    pub fn copy(&self, alloc: Global) -> Result<Label, AllocError>
        ensures { IfOk result (λ label. label ≡ self.now) }
    {
        let text = String::from_str(alloc, self.as_str())?;
        Ok(Label::new(text))
    }

    /// Whether the other label is equal.
    pub fn equals(&self, other: &Label) -> bool
        ensures { IsTrue result ↔ (self.now ≡ other.now) }
    {
        self.as_str() == other.as_str()
    }
}
