//! How many more items of each kind a file may have.
//!
//! The reader updates it after each item, so a file past a limit is refused at the item that passes it, before more is
//! read. Nodes are counted as the base forms that values stand for, before any base form is made.

ghost use Rattle.std.specs.Prelude.{◌≡◌, IfOk};
ghost use Rattle.pg_file_items.specs.Entries.{entry_of};
ghost use Rattle.pg_file_parser.specs.Limits.{full_allowance, after_class, after_word, after_rule, allowance_after};

use pg_file_items::{Item, body_size};
use pg_grammar_form::{CLASS_LIMIT, NODE_LIMIT, RULE_LIMIT, WORD_LIMIT};
use std::alloc::{AllocError, Global};

/// How many more items there may be.
#[derive(Clone, Copy)]
pub struct Allowance {
    pub classes: usize,
    pub words: usize,
    pub rules: usize,
    pub nodes: usize,
}

impl Allowance {
    /// The allowance of a file without items.
    pub fn new() -> Allowance
        ensures { result ≡ full_allowance }
    {
        Allowance {
            classes: CLASS_LIMIT,
            words: WORD_LIMIT,
            rules: RULE_LIMIT,
            nodes: NODE_LIMIT,
        }
    }

    /// The allowance left after an item, if there was room for it.
    pub fn after(self, alloc: Global, item: &Item) -> Result<Option<Allowance>, AllocError>
        ensures { IfOk result (λ left. left ≡ allowance_after self (entry_of item.now)) }
    {
        match item {
            Item::Class { .. } => Ok(self.after_class()),
            Item::Word { .. } => Ok(self.after_word()),
            Item::Rule { body, .. } => Ok(self.after_rule(body_size(alloc, body.as_slice())?)),
            Item::Operators { .. } | Item::Table { .. } | Item::Start { .. } => Ok(Some(self)),
        }
    }

    fn after_class(self) -> Option<Allowance>
        ensures { result ≡ after_class self }
    {
        let mut allowance = self;
        allowance.classes = allowance.classes.checked_sub(1)?;
        Some(allowance)
    }

    fn after_word(self) -> Option<Allowance>
        ensures { result ≡ after_word self }
    {
        let mut allowance = self;
        allowance.words = allowance.words.checked_sub(1)?;
        Some(allowance)
    }

    fn after_rule(self, size: usize) -> Option<Allowance>
        ensures { result ≡ after_rule self size }
    {
        let mut allowance = self;
        allowance.rules = allowance.rules.checked_sub(1)?;
        allowance.nodes = allowance.nodes.checked_sub(size)?;
        Some(allowance)
    }
}
