//! The costs of a grammar's texts, worked out once and shared by all drafts.

use crate::above::nodes_above;
use crate::shortest::{Costs, Equations, Front, Plain, solved};
use pg_grammar_value::Grammar;
use pg_graph::Numbers;
use pg_sets::Sets;
use pg_sets_own::{OperatorStarts, operator_starts};
use std::alloc::{AllocError, Global};

/// A grammar with what its texts cost.
#[derive(Drop)]
pub struct Basis<'g> {
    /// The grammar.
    pub grammar: &'g Grammar,
    /// The first and follow sets of its nodes.
    pub sets: &'g Sets,
    /// How operators and gaps begin, if the grammar has any.
    pub operators: Option<OperatorStarts>,
    /// The nodes above each node.
    pub(crate) above: Vec<Numbers>,
    /// The costs of any text, and of the empty text.
    pub(crate) plain: Plain,
    /// The costs of nonempty texts.
    pub(crate) some: Costs,
}

impl<'g> Basis<'g> {
    /// Works out what the texts of the grammar cost.
    pub fn of(
        alloc: Global,
        grammar: &'g Grammar,
        sets: &'g Sets,
    ) -> Result<Basis<'g>, AllocError> {
        let above = nodes_above(alloc, grammar)?;
        let (plain, some) = costs_of(alloc, grammar, sets, &above)?;
        let operators = operator_starts(alloc, grammar)?;
        Ok(Basis {
            grammar,
            sets,
            operators,
            above,
            plain,
            some,
        })
    }

    /// The equations for the costs of texts that begin with this character.
    pub(crate) fn begun_with(&self, character: char) -> Equations<'_> {
        Equations {
            grammar: self.grammar,
            sets: self.sets,
            above: &self.above,
            front: Front::Character(character),
        }
    }
}

/// The costs of any text and of the empty text, and those of nonempty texts.
fn costs_of<'g>(
    alloc: Global,
    grammar: &'g Grammar,
    sets: &'g Sets,
    above: &'g [Numbers],
) -> Result<(Plain, Costs), AllocError> {
    let plain = plain_costs(alloc, grammar, sets, above)?;
    let equations = Equations {
        grammar,
        sets,
        above,
        front: Front::Some,
    };
    let some = solved(alloc, equations, Some(&plain))?;
    Ok((plain, some))
}

/// The costs of any text, and of the empty text.
fn plain_costs<'g>(
    alloc: Global,
    grammar: &'g Grammar,
    sets: &'g Sets,
    above: &'g [Numbers],
) -> Result<Plain, AllocError> {
    let mut equations = Equations {
        grammar,
        sets,
        above,
        front: Front::Any,
    };
    let any = solved(alloc, equations, None)?;
    equations.front = Front::Nothing;
    let nothing = solved(alloc, equations, None)?;
    Ok(Plain { any, nothing })
}
