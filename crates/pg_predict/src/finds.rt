//! The first violation of a grammar.
//!
//! The functions allocate no memory, and stop at the first that they find.
ghost use Rattle.std.specs.Prelude.{◌≡◌, ◌<◌, length};
ghost use Rattle.pg_grammar_value.specs.Grammar.{IsGrammar};
ghost use Rattle.pg_predict.specs.Broken.{IsFirstNoted, first_number};
ghost use Rattle.pg_predict_conditions.specs.Judged.{noted_at};
ghost use Rattle.pg_predict_conditions.specs.Suspects.{AreSuspects};

use crate::asking::{Asking, find_next};
use crate::violation::{Broken, condition_number};
use pg_grammar_form::NodeId;
use pg_grammar_value::Grammar;
use pg_predict_conditions::Judge;

/// The first node where anything is wrong, and the number of the first condition that is broken there.
pub(crate) fn first_noted(judge: &Judge, grammar: &Grammar) -> Option<Broken>
    requires { AreSuspects grammar.now judge.now.sets judge.now.meetings judge.now.suspects }
    ensures noted { IsFirstNoted grammar.now judge.now result }
    ensures grammar { IsGrammar grammar.now }
{
    for number in 0..grammar.nodes().len() {
        let node = NodeId::new(number);
        if let Some(condition) = first_at(judge, grammar, node) {
            return Some(Broken { node, condition });
        }
    }
    None
}

/// The number of the first condition that is broken at a node.
fn first_at(judge: &Judge, grammar: &Grammar, node: NodeId) -> Option<u8>
    requires suspects { AreSuspects grammar.now judge.now.sets judge.now.meetings judge.now.suspects }
    requires grammar { IsGrammar grammar.now }
    requires node { node < length grammar.now.nodes }
    ensures { result ≡ first_number (noted_at grammar.now judge.now node) }
{
    let form = grammar.node(node);
    let mut asking = Asking::first();
    match find_next(judge, node, form, &mut asking) {
        Some(kind) => Some(condition_number(&kind)),
        None => None,
    }
}
