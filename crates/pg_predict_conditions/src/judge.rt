//! The facts that decide whether a grammar is accepted: its sets, the rules that head themselves, the starts that meet, and the step cost.
//!
//! Each question of a condition is answered here, and only here.
ghost use Rattle.std.specs.Prelude.{◌≡◌, IfOk, option_copied};
ghost use Rattle.std.specs.Option.{option_map};
ghost use Rattle.pg_graph_bits.specs.Numbers.{set_at};
ghost use Rattle.pg_graph.specs.Marks.{is_marked};
ghost use Rattle.pg_predict_conditions.specs.Judged.{cost_noted, is_costly, node_meeting, follow_meeting, link_meeting, operators_meet, gaps_meet, gap_met, gap_met_by};
ghost use Rattle.pg_predict_conditions.specs.Conditions.{claimed_facts};
ghost use Rattle.pg_predict_conditions.specs.Shown.{AreWellFormed, AreBySets, AreFacts, AreLeastFacts};

use crate::costly::costly_body;
use crate::meetings::{Meeting, earlier, first_meeting, first_met};
use crate::met_starts::met_starts;
use crate::operator_facts::{OperatorFacts, operator_facts};
use crate::recursion::recursive_bodies;
use crate::suspects::suspects;
use pg_grammar_form::NodeId;
use pg_grammar_value::Grammar;
use pg_graph::is_marked;
use pg_graph_bits::BitSet;
use pg_predict_costs::step_cost;
use pg_sets::Sets;
use pg_sets_own::ListedStart;
use std::alloc::{AllocError, Global};
use std::marker::Model;

/// The facts of a grammar, seen as marks and sets by the numbers of nodes and starts.
#[derive(Debug, Drop)]
pub struct Judge {
    sets: Sets,
    recursive: Vec<bool>,
    meetings: Vec<BitSet>,
    operators: Option<OperatorFacts>,
    suspects: Vec<bool>,
    cost: Option<u64>,
    costly: Option<NodeId>,
}

impl Model for Judge {
    ghost use Rattle.pg_predict_conditions.specs.Judged.{Facts};

    ghost Value = { Facts };

    ghost view = { λ judge. record { sets = judge.sets; recursive = judge.recursive.items; meetings = judge.meetings.items; operators = judge.operators; suspects = judge.suspects.items; cost = judge.cost; costly = judge.costly } };
}

impl Judge {
    /// The facts of a grammar, from its least sets.
    pub fn of(alloc: Global, grammar: &Grammar) -> Result<Judge, AllocError>
        ensures { IfOk result (λ judge. AreLeastFacts grammar.now judge) }
    {
        let sets = Sets::compute(alloc, grammar)?;
        let recursive = recursive_bodies(alloc, grammar, &sets)?;
        let cost = step_cost(alloc, grammar, &sets)?;
        Judge::by_sets(alloc, grammar, sets, recursive, cost)
    }

    /// The facts of a grammar, from claimed sets and a claimed step cost; no rule counts as heading itself.
    pub fn by_claims(
        alloc: Global,
        grammar: &Grammar,
        sets: Sets,
        cost: u64,
    ) -> Result<Judge, AllocError>
        requires { AreWellFormed grammar.now sets }
        ensures { IfOk result (λ judge. AreFacts grammar.now (claimed_facts sets cost) judge) }
    {
        let none = Vec::new(alloc);
        Judge::by_sets(alloc, grammar, sets, none, Some(cost))
    }

    /// The facts from these sets, the marks on the bodies of rules that head themselves, and the step cost, if there is one.
    fn by_sets(
        alloc: Global,
        grammar: &Grammar,
        sets: Sets,
        recursive: Vec<bool>,
        cost: Option<u64>,
    ) -> Result<Judge, AllocError>
        requires { AreWellFormed grammar.now sets }
        ensures { IfOk result (λ judge. AreBySets grammar.now sets recursive.items cost judge) }
    {
        let meetings = met_starts(alloc, sets.starts())?;
        let suspects = suspects(alloc, grammar, &sets, meetings.as_slice())?;
        let operators = operator_facts(alloc, grammar, sets.starts())?;
        let costly = costly_body(grammar, cost);
        Ok(Judge {
            sets,
            recursive,
            meetings,
            operators,
            suspects,
            cost,
            costly,
        })
    }

    /// Gives the sets back to the caller.
    pub fn into_sets(self) -> Sets
        ensures { result ≡ self.sets }
    {
        self.sets
    }

    /// The step cost of the grammar; 0 if it has none because a rule heads itself.
    pub fn cost(&self) -> u64
        ensures { result ≡ cost_noted self.now }
    {
        self.cost.unwrap_or(0)
    }

    /// The sets.
    pub fn sets(&self) -> &Sets
        ensures { result.now ≡ self.now.sets }
    {
        &self.sets
    }

    /// The starts of the grammar.
    pub fn starts(&self) -> &[ListedStart]
        ensures { result.now ≡ self.now.sets.starts }
    {
        self.sets.starts()
    }

    /// The first set of a node.
    pub(crate) fn first(&self, node: NodeId) -> &BitSet
        ensures { result.now ≡ set_at self.now.sets.firsts node }
    {
        self.sets.first(node)
    }

    /// The follow set of a node.
    pub(crate) fn follow(&self, node: NodeId) -> &BitSet
        ensures { result.now ≡ set_at self.now.sets.follows node }
    {
        self.sets.follow(node)
    }

    /// The operator start, if the grammar has operators.
    pub fn operator(&self) -> Option<&ListedStart>
        ensures { option_copied result ≡ option_map (λ operators. operators.operator) self.now.operators }
    {
        match &self.operators {
            Some(operators) => Some(&operators.operator),
            None => None,
        }
    }

    /// Whether a node is nullable.
    pub(crate) fn is_nullable(&self, node: NodeId) -> bool
        ensures { result ≡ is_marked self.now.sets.nullable node }
    {
        self.sets.nullable(node)
    }

    /// Whether a node is the body of a rule that heads itself.
    pub(crate) fn is_recursive(&self, node: usize) -> bool
        ensures { result ≡ is_marked self.now.recursive node }
    {
        is_marked(&self.recursive, node)
    }

    /// Whether the step cost is above the limit and this is the node where that is reported.
    pub fn is_costly(&self, node: NodeId) -> bool
        ensures { result ≡ is_costly self.now node }
    {
        match self.costly {
            Some(body) => body == node,
            None => false,
        }
    }

    /// Whether an alternative may meet a later one.
    pub(crate) fn is_suspect(&self, node: NodeId) -> bool
        ensures { result ≡ is_marked self.now.suspects node }
    {
        is_marked(&self.suspects, node.index())
    }

    /// The first meeting between a start of one node and a start of another.
    pub(crate) fn node_meeting(&self, one: NodeId, other: NodeId) -> Option<Meeting>
        ensures { result ≡ node_meeting self.now one other }
    {
        first_meeting(&self.meetings, self.sets.first(one), self.sets.first(other))
    }

    /// The first meeting between a start of one node and a start that follows another.
    pub(crate) fn follow_meeting(&self, part: NodeId, node: NodeId) -> Option<Meeting>
        ensures { result ≡ follow_meeting self.now part node }
    {
        first_meeting(
            &self.meetings,
            self.sets.first(part),
            self.sets.follow(node),
        )
    }

    /// The first meeting between a start of a chain's round, a separator and an operand, and a start that follows the chain.
    pub(crate) fn link_meeting(
        &self,
        operand: NodeId,
        separator: NodeId,
        node: NodeId,
    ) -> Option<Meeting>
        ensures { result ≡ link_meeting self.now operand separator node }
    {
        let met = self.follow_meeting(separator, node);
        if self.is_nullable(separator) {
            earlier(met, self.follow_meeting(operand, node))
        } else {
            met
        }
    }

    /// The first start in a set that operators meet.
    pub(crate) fn operators_meet(&self, set: &BitSet) -> Option<usize>
        ensures { result ≡ operators_meet self.now set.now }
    {
        match &self.operators {
            Some(operators) => first_met(&operators.met, set),
            None => None,
        }
    }

    /// The first start in a set that gaps meet.
    pub(crate) fn gaps_meet(&self, set: &BitSet) -> Option<usize>
        ensures { result ≡ gaps_meet self.now set.now }
    {
        match &self.operators {
            Some(operators) => first_met(&operators.met_by_gap, set),
            None => None,
        }
    }

    /// The first start that gaps meet at a node: the operator start, whose number comes after the starts of the sets; else one of
    /// the term, if there is one; else the first that follows the node.
    pub(crate) fn gap_met(&self, term: Option<usize>, node: NodeId) -> Option<usize>
        ensures { result ≡ gap_met self.now term node }
    {
        match &self.operators {
            Some(operators) => self.gap_met_by(term, node, operators),
            None => None,
        }
    }

    /// As `gap_met`, from the facts of the operators.
    fn gap_met_by(
        &self,
        term: Option<usize>,
        node: NodeId,
        operators: &OperatorFacts,
    ) -> Option<usize>
        ensures { result ≡ gap_met_by self.now term node operators.now }
    {
        if operators.in_gap {
            Some(self.sets.starts().len())
        } else {
            term.or(first_met(&operators.met_by_gap, self.sets.follow(node)))
        }
    }
}
