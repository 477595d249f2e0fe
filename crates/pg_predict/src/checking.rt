//! The check: it accepts a grammar that is predictive, and otherwise everything that is wrong with the grammar can be reported.
ghost use Rattle.std.specs.Prelude.{◌≡◌, IfOk, IfErr};
ghost use Rattle.pg_predict.specs.Checked.{IsChecked, IsFaultOf};
ghost use Rattle.pg_predict_conditions.specs.Shown.{AreLeastFacts};

use crate::checked::Checked;
use crate::finds::first_noted;
use crate::refused::Refused;
use crate::source::Source;
use crate::texts::texts_of;
use pg_grammar_value::Grammar;
use pg_predict_conditions::Judge;
use std::alloc::Global;

/// Why a grammar wasn't accepted.
#[derive(Drop)]
pub enum CheckFault {
    /// It isn't predictive.
    Refused(Refused),
    /// Memory ran out before that was known. The grammar is handed back unchanged.
    Memory(Grammar),
}

/// Accepts a grammar that is predictive and whose step cost is at most 4,294,967,296, so that no condition is broken at any node.
///
/// Otherwise the grammar is handed back, with everything that is wrong with it, or because memory ran out.
pub fn check(alloc: Global, grammar: Grammar) -> Result<Checked, CheckFault>
    ensures same { IfOk result (λ checked. checked.grammar ≡ grammar) }
    ensures accepted { IfOk result (λ checked. IsChecked checked) }
    ensures refused { IfErr result (IsFaultOf grammar) }
{
    match Judge::of(alloc, &grammar) {
        Ok(judge) => decide(alloc, grammar, judge),
        Err(_) => Err(CheckFault::Memory(grammar)),
    }
}

/// Accepts a grammar by its facts, or refuses it.
fn decide(alloc: Global, grammar: Grammar, judge: Judge) -> Result<Checked, CheckFault>
    requires { AreLeastFacts grammar judge }
    ensures same { IfOk result (λ checked. checked.grammar ≡ grammar) }
    ensures accepted { IfOk result (λ checked. IsChecked checked) }
    ensures refused { IfErr result (IsFaultOf grammar) }
{
    if first_noted(&judge, &grammar).is_none() {
        let cost = judge.cost();
        return Ok(Checked::new(grammar, judge.into_sets(), cost));
    }
    match texts_of(alloc, &grammar, &judge) {
        Ok(texts) => Err(CheckFault::Refused(Refused::new(Source {
            grammar,
            judge,
            texts,
        }))),
        Err(_) => {
            drop(judge);
            Err(CheckFault::Memory(grammar))
        }
    }
}
