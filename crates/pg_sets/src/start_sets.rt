//! First and follow sets: the starts that reach each set along the edges (`flows.rt`), from the sets that hold them by
//! themselves (`origins.rt`).
ghost use Rattle.std.specs.Prelude.{◌≡◌, ◌↔◌, ℕ, true, IfOk};
ghost use Rattle.pg_graph.specs.Marks.{is_marked};
ghost use Rattle.pg_sets_nullable.specs.Nullable.{Nullable};
ghost use Rattle.pg_sets.specs.Sets.{AreStartSets};

use crate::flows::flow_graph;
use crate::origins::listed_starts;
use pg_grammar_value::Grammar;
use pg_graph::spread;
use pg_graph_bits::BitSet;
use pg_sets_own::{ListedStart, key_tries};
use std::alloc::{AllocError, Global};

/// The starts of a grammar, and for each node the numbers of the starts in its sets.
#[derive(Drop)]
pub(crate) struct StartSets {
    /// The starts in their order.
    pub(crate) starts: Vec<ListedStart>,
    /// For each node its first set.
    pub(crate) firsts: Vec<BitSet>,
    /// For each node its follow set.
    pub(crate) follows: Vec<BitSet>,
}

/// The first and the follow sets of the grammar, from the marks of its nullable nodes.
pub(crate) fn start_sets(
    alloc: Global,
    grammar: &Grammar,
    nullable: &[bool],
) -> Result<StartSets, AllocError>
    requires { (p : ℕ) → (is_marked nullable.now p ≡ true) ↔ Nullable grammar.now p }
    ensures { IfOk result (λ sets. AreStartSets grammar.now sets.starts.items sets.firsts.items sets.follows.items) }
{
    let keys = key_tries(alloc, grammar)?;
    let graph = flow_graph(alloc, grammar, nullable, keys.as_slice())?;
    let listing = listed_starts(alloc, grammar)?;
    let count = grammar.nodes().len();
    let mut firsts = spread(alloc, graph.as_slice(), listing.origins.as_slice())?;
    prove!(count <= firsts.len());
    let follows = firsts.split_off(count)?;
    Ok(StartSets {
        starts: listing.starts,
        firsts,
        follows,
    })
}
