//! Which rules each rule heads.
//!
//! A walk from each use of a rule goes up to every node that reaches it, so the heads of a rule are the rules whose uses
//! lead up to its body.
ghost use Rattle.std.specs.Prelude.{◌≡◌, ◌↔◌, ℕ, true, IfOk};
ghost use Rattle.pg_grammar_value.specs.Grammar.{IsGrammar};
ghost use Rattle.pg_graph.specs.Marks.{is_marked};
ghost use Rattle.pg_sets_nullable.specs.Nullable.{Nullable};
ghost use Rattle.pg_sets_nullable.specs.Reached.{AreHeads};

use crate::parts::{reached_from, uses_of_rules};
use crate::rules::Rules;
use pg_grammar_value::Grammar;
use pg_graph::{gathered, numbers_at};
use std::alloc::{AllocError, Global};

/// The heads of each rule. `nullable` must mark the grammar's nullable nodes.
pub fn heads_of_rules(
    alloc: Global,
    grammar: &Grammar,
    nullable: &[bool],
) -> Result<Vec<Rules>, AllocError>
    requires { (p : ℕ) → (is_marked nullable.now p ≡ true) ↔ Nullable grammar.now p }
    ensures heads { IfOk result (λ heads. AreHeads grammar.now heads.items) }
    ensures grammar { IfOk result (λ _. IsGrammar grammar.now) }
{
    let graph = reached_from(alloc, grammar, nullable)?;
    let uses = uses_of_rules(alloc, grammar)?;
    let reaching = gathered(alloc, &graph, &uses)?;
    let mut heads = Vec::new(alloc);
    for rule in grammar.rules() {
        let numbers = numbers_at(&reaching, rule.body.index());
        heads.push(Rules::of(alloc, numbers)?)?;
    }
    Ok(heads)
}
