//! First and follow sets by the claims, and the claimed sets of rules, as sets of numbers of starts.
//!
//! All starts of the grammar and of the claims stand in one list, each once and in order. They are handed on along the edges
//! (`edges`), from the sets that hold them by themselves (`origins`).

ghost use Rattle.std.specs.Prelude.{◌≡◌, ◌≤◌, ◌+◌, length, take, drop, IfOk};
ghost use Rattle.pg_certificate_verify.specs.Lists.{lists_of};
ghost use Rattle.pg_certificate_verify.specs.SetsBy.{AreSetsBy};

use crate::edges::claim_graph;
use crate::origins::claim_origins;
use pg_certificate::Certificate;
use pg_grammar_value::Grammar;
use pg_graph::spread;
use pg_graph_bits::BitSet;
use pg_sets_own::{ListedStart, key_tries};
use std::alloc::{AllocError, Global};

/// The starts of a grammar and of claims, and the sets of their numbers.
#[derive(Drop)]
pub struct ClaimedSets {
    /// The starts in their order.
    pub starts: Vec<ListedStart>,
    /// For each node what can begin it by the claims.
    pub firsts: Vec<BitSet>,
    /// For each node what can follow it by the claims.
    pub follows: Vec<BitSet>,
    /// The sets of the rules, as `specs/SetsBy.antt` numbers them.
    pub of_rules: Vec<BitSet>,
}

/// The sets by the claims, from the marks of the nullable nodes.
pub fn sets_by_claims(
    alloc: Global,
    grammar: &Grammar,
    certificate: &Certificate,
    nullable: &[bool],
) -> Result<ClaimedSets, AllocError>
    ensures { IfOk result (λ sets. AreSetsBy grammar.now certificate.now nullable.now (lists_of sets)) }
{
    let keys = key_tries(alloc, grammar)?;
    let graph = claim_graph(alloc, grammar, nullable, keys.as_slice())?;
    let listing = claim_origins(alloc, grammar, certificate.claims())?;
    let count = grammar.nodes().len();
    let sets = spread(alloc, graph.as_slice(), listing.origins.as_slice())?;
    divided(count, listing.starts, sets)
}

/// The starts with the sets of their numbers: the first sets of `count` nodes, their follow sets, and those of the rules.
fn divided(
    count: usize,
    starts: Vec<ListedStart>,
    sets: Vec<BitSet>,
) -> Result<ClaimedSets, AllocError>
    requires { count + count ≤ length sets.items }
    ensures { IfOk result (λ divided. lists_of divided ≡ record { starts = starts.items; firsts = take count sets.items; follows = take count (drop count sets.items); of_rules = drop count (drop count sets.items) }) }
{
    let mut firsts = sets;
    prove!(count <= firsts.len());
    let mut follows = firsts.split_off(count)?;
    prove!(count <= follows.len());
    let of_rules = follows.split_off(count)?;
    Ok(ClaimedSets {
        starts,
        firsts,
        follows,
        of_rules,
    })
}
