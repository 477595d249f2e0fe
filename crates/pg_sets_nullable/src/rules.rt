//! Lists of rules.
//!
//! Contracts see one as the list of the rules' numbers.
ghost use Rattle.std.specs.Prelude.{◌≡◌, IfOk};
ghost use Rattle.pg_graph.specs.Graphs.{numbers_at};

use pg_grammar_form::RuleId;
use std::alloc::{AllocError, Global};
use std::marker::Model;

/// Rules in order, seen as their numbers.
#[derive(Debug, Drop)]
pub struct Rules {
    rules: Vec<RuleId>,
}

impl Model for Rules {
    ghost use Rattle.std.specs.Prelude.{ℕ, List};

    ghost Value = { List ℕ };

    ghost view = { λ list. list.rules.items };
}

impl Rules {
    /// The rules with these numbers.
    pub fn of(alloc: Global, numbers: &[usize]) -> Result<Rules, AllocError>
        ensures { IfOk result (λ rules. rules ≡ numbers.now) }
    {
        let mut rules = Vec::new(alloc);
        for number in numbers {
            rules.push(RuleId::new(*number))?;
        }
        Ok(Rules { rules })
    }

    /// The rules, in order.
    pub fn as_slice(&self) -> &[RuleId]
        ensures { result.now ≡ self.now }
    {
        self.rules.as_slice()
    }
}

/// One of the lists of rules; the empty list for an index out of range.
pub fn rules_at(lists: &[Rules], list: usize) -> &[RuleId]
    ensures { result.now ≡ numbers_at lists.now list }
{
    match lists.get(list) {
        Some(rules) => rules.as_slice(),
        None => &[],
    }
}
