//! The certificate of a checked grammar, as text.

ghost use Rattle.std.specs.Prelude.{ℕ, IfOk};
ghost use Rattle.pg_predict_costs.specs.Rounds.{AreCutCosts};
ghost use Rattle.pg_predict_costs.specs.StepCost.{IsStepCost};
ghost use Rattle.pg_certificate_own.specs.Own.{IsOwnCertificate};
ghost use Rattle.pg_sets.specs.Sets.{AreSets};

use crate::least::least_certificate;
use pg_certificate::write_certificate;
use pg_grammar_value::Grammar;
use pg_predict::Checked;
use pg_predict_costs::costs_of_nodes;
use pg_sets::Sets;
use std::alloc::{AllocError, Global};

/// The certificate of a checked grammar, as JSON without a line end: its sets, its ranks and its costs, rule by rule (ours).
/// It takes time linear in the text.
pub fn own_certificate(alloc: Global, checked: &Checked) -> Result<Vec<u8>, AllocError>
    ensures { IfOk result (λ text. IsOwnCertificate checked.now.grammar text.items) }
{
    let grammar = checked.grammar();
    let sets = checked.sets();
    match costs_of_nodes(alloc, grammar, sets)? {
        Some(costs) => least_text(alloc, grammar, sets, costs.as_slice()),
        // A checked grammar has a step cost.
        None => unreachable!(),
    }
}

/// The text of the certificate with these sets and costs.
#[tactic(auto, using(crate::proofs::Written::own_text))]
fn least_text(
    alloc: Global,
    grammar: &Grammar,
    sets: &Sets,
    costs: &[u64],
) -> Result<Vec<u8>, AllocError>
    requires sets { AreSets grammar.now sets.now }
    requires costs { AreCutCosts grammar.now sets.now.nullable costs.now }
    requires cost { (k : ℕ) × IsStepCost grammar.now sets.now.nullable k }
    ensures { IfOk result (λ text. IsOwnCertificate grammar.now text.items) }
{
    // These are called for their contracts: facts about the grammar.
    let _nodes = grammar.nodes();
    let _rules = grammar.rules();
    match least_certificate(alloc, grammar, sets, costs)? {
        Some(certificate) => write_certificate(alloc, grammar, &certificate),
        // If there is a step cost, each rule has a rank.
        None => unreachable!(),
    }
}
