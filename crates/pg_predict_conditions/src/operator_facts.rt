//! Facts about a grammar's operators: how they begin, and which starts they and gaps meet.
ghost use Rattle.std.specs.Prelude.{◌≡◌, IfOk};
ghost use Rattle.pg_predict_conditions.specs.Shown.{AreOperatorFacts, IsMetSet};

use crate::met_starts::met_by;
use pg_grammar_value::Grammar;
use pg_graph_bits::BitSet;
use pg_sets_own::{ListedStart, OperatorStarts, operator_starts};
use pg_start::apart;
use std::alloc::{AllocError, Global};

/// The facts about operators. The sets hold the numbers that starts have in the grammar's sets.
#[derive(Debug, Drop)]
pub struct OperatorFacts {
    /// The operator start.
    pub operator: ListedStart,
    /// The starts that operators meet.
    pub met: BitSet,
    /// The starts that gaps meet.
    pub met_by_gap: BitSet,
    /// Whether gaps meet operators.
    pub in_gap: bool,
}

/// The facts about a grammar's operators; none without an operators item.
#[tactic(auto, using(crate::proofs::GapMeetings::are_of_operators))]
pub(crate) fn operator_facts(
    alloc: Global,
    grammar: &Grammar,
    starts: &[ListedStart],
) -> Result<Option<OperatorFacts>, AllocError>
    ensures { IfOk result (AreOperatorFacts grammar.now starts.now) }
{
    match operator_starts(alloc, grammar)? {
        Some(both) => {
            let (met, met_by_gap) = met_by_both(alloc, starts, &both)?;
            let in_gap = !apart(&both.gap, &both.operator.start);
            Ok(Some(OperatorFacts {
                operator: both.operator,
                met,
                met_by_gap,
                in_gap,
            }))
        }
        None => Ok(None),
    }
}

/// The starts that operators meet, and those that gaps meet.
fn met_by_both(
    alloc: Global,
    starts: &[ListedStart],
    both: &OperatorStarts,
) -> Result<(BitSet, BitSet), AllocError>
    ensures operators { IfOk result (λ sets. IsMetSet starts.now both.now.operator.start sets.0) }
    ensures gaps { IfOk result (λ sets. IsMetSet starts.now both.now.gap sets.1) }
{
    let met = met_by(alloc, starts, &both.operator.start)?;
    let met_by_gap = met_by(alloc, starts, &both.gap)?;
    Ok((met, met_by_gap))
}
