//! The sets of a grammar, and the calls that read them.
//!
//! Contracts see them as lists, by the numbers of nodes and rules; `compute` says which grammar they belong to. Nothing changes
//! them once they are made, and only `compute` and `of` allocate memory.
ghost use Rattle.std.specs.Prelude.{◌≡◌, [], IfOk};
ghost use Rattle.pg_graph_bits.specs.Numbers.{set_at};
ghost use Rattle.pg_graph.specs.Graphs.{numbers_at};
ghost use Rattle.pg_graph.specs.Marks.{is_marked};
ghost use Rattle.pg_sets_nullable.specs.Ranks.{rank_at};

use crate::start_sets::start_sets;
use pg_grammar_form::{NodeId, RuleId};
use pg_grammar_value::Grammar;
use pg_graph::is_marked;
use pg_graph_bits::BitSet;
use pg_sets_nullable::{Rules, heads_of_rules, nullable_nodes, rank_at, ranks_of_rules, rules_at};
use pg_sets_own::ListedStart;
use std::alloc::{AllocError, Global};
use std::marker::Model;

/// The least sets of a grammar's nodes and rules, which the checks of a grammar use.
#[derive(Debug)]
pub struct Sets {
    nullable: Vec<bool>,
    starts: Vec<ListedStart>,
    firsts: Vec<BitSet>,
    follows: Vec<BitSet>,
    heads: Vec<Rules>,
    ranks: Vec<Option<u32>>,
    /// The set of a node that doesn't exist.
    none: BitSet,
}

// Written out, so that the crates above needn't prove again how each part is dropped.
impl Drop for Sets {
    fn drop(self) {
        let Sets {
            nullable,
            starts,
            firsts,
            follows,
            heads,
            ranks,
            none,
        } = self;
        drop(nullable);
        drop(starts);
        drop(firsts);
        drop(follows);
        drop(heads);
        drop(ranks);
        drop(none);
    }
}

impl Model for Sets {
    ghost use Rattle.std.specs.Prelude.{◌≡◌, []};
    ghost use Rattle.pg_sets.specs.Sets.{Sets as Lists};

    ghost Value = { Lists };

    ghost view = { λ sets. record { nullable = sets.nullable.items; starts = sets.starts.items; firsts = sets.firsts.items; follows = sets.follows.items; heads = sets.heads.items; ranks = sets.ranks.items } };

    ghost invariant = { λ sets. sets.none ≡ [] };
}

impl Sets {
    ghost use Rattle.pg_sets.specs.Sets.{AreSets};

    /// The sets of the grammar, by the definitions alone (ours).
    pub fn compute(alloc: Global, grammar: &Grammar) -> Result<Sets, AllocError>
        ensures { IfOk result (λ sets. AreSets grammar.now sets) }
    {
        let nullable = nullable_nodes(alloc, grammar)?;
        let found = start_sets(alloc, grammar, &nullable)?;
        let heads = heads_of_rules(alloc, grammar, &nullable)?;
        let ranks = ranks_of_rules(alloc, grammar, &heads)?;
        let none = BitSet::new(alloc, 0)?;
        Ok(Sets {
            nullable,
            starts: found.starts,
            firsts: found.firsts,
            follows: found.follows,
            heads,
            ranks,
            none,
        })
    }

    /// The sets with these marks, starts, first and follow sets, and with no heads and no ranks. Which grammar they belong to is for the caller to know (ours).
    pub fn of(
        alloc: Global,
        nullable: Vec<bool>,
        starts: Vec<ListedStart>,
        firsts: Vec<BitSet>,
        follows: Vec<BitSet>,
    ) -> Result<Sets, AllocError>
        ensures { IfOk result (λ sets. sets ≡
            record { nullable = nullable.items; starts = starts.items; firsts = firsts.items; follows = follows.items; heads = []; ranks = [] }) }
    {
        let heads = Vec::new(alloc);
        let ranks = Vec::new(alloc);
        let none = BitSet::new(alloc, 0)?;
        Ok(Sets {
            nullable,
            starts,
            firsts,
            follows,
            heads,
            ranks,
            none,
        })
    }

    /// Whether the node can succeed on nothing.
    pub fn nullable(&self, node: NodeId) -> bool
        ensures { result ≡ is_marked self.now.nullable node }
    {
        is_marked(&self.nullable, node.index())
    }

    /// The starts of the grammar, each once: classes by their ranges, keys by text and then by what they exclude, words in
    /// the order of their items, then the operators and the end. First and follow sets hold indices into this list.
    pub fn starts(&self) -> &[ListedStart]
        ensures { result.now ≡ self.now.starts }
    {
        self.starts.as_slice()
    }

    /// The numbers of the starts that can begin what the node reads.
    pub fn first(&self, node: NodeId) -> &BitSet
        ensures { result.now ≡ set_at self.now.firsts node }
    {
        set_at(&self.firsts, node.index(), &self.none)
    }

    /// The numbers of the starts that can follow what the node reads.
    pub fn follow(&self, node: NodeId) -> &BitSet
        ensures { result.now ≡ set_at self.now.follows node }
    {
        set_at(&self.follows, node.index(), &self.none)
    }

    /// The rules that the rule's body uses before anything is consumed, from the lowest number up.
    pub fn heads(&self, rule: RuleId) -> &[RuleId]
        ensures { result.now ≡ numbers_at self.now.heads rule }
    {
        rules_at(&self.heads, rule.index())
    }

    /// 0 for a rule without heads, else 1 plus the greatest rank of its heads; none exactly where a chain of heads leads
    /// from the rule to a cycle.
    pub fn rank(&self, rule: RuleId) -> Option<u32>
        ensures { result ≡ rank_at self.now.ranks rule }
    {
        rank_at(&self.ranks, rule)
    }
}

/// One of the sets; `none` if there is no set with this number.
fn set_at<'a>(sets: &'a [BitSet], set: usize, none: &'a BitSet) -> &'a BitSet
    requires { none.now ≡ [] }
    ensures { result.now ≡ set_at sets.now set }
{
    match sets.get(set) {
        Some(numbers) => numbers,
        None => none,
    }
}
