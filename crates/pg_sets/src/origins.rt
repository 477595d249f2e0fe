//! Which sets hold each start by themselves, and not through another set.
//!
//! First sets have the numbers of their nodes, and follow sets the numbers after those (`flows.rt`). A start that several nodes
//! give is kept once, and the map keeps the starts in order.
ghost use Rattle.std.specs.Prelude.{◌≡◌, false, ◌↔◌, ◌⊎◌, ◌≤◌, ℕ, length, IfOk, OnOk, MatchOption};
ghost use Rattle.std.specs.BTreeMap.{get, keys, values, IsOrdered};
ghost use Rattle.std.specs.Ordering.{is_eq};
ghost use Rattle.pg_grammar_form.specs.declared.used.OperatorBuilders.{OperatorBuilders};
ghost use Rattle.pg_start.specs.declared.kind.StartKind.{StartKind};
ghost use Rattle.pg_sets_own.specs.Listed.{IsListed, start_order};
ghost use Rattle.pg_sets.specs.Origins.{sets_of, HoldsIt, IsThere, SourceAt, AreOrigins, AreSoManyOrigins, AreListed, AreReaders, AreItemOrigins};
ghost use Rattle.pg_sets_own.specs.Own.{IsAmong, IsPlain, AreWordStarts};
ghost use Rattle.pg_sets_own.specs.OwnStarts.{OwnStart};
ghost use Rattle.pg_sets_own.specs.Words.{AreClassesOf};
ghost use Rattle.pg_sets_own.specs.declared.listed.ListedStart.{ListedStart};

use crate::flows::follow_of;
use crate::readers::{add_readers, item_read, readers_of_words};
use pg_class::Class;
use pg_grammar_classes::classes_of_items;
use pg_grammar_form::{Form, Node};
use pg_grammar_value::Grammar;
use pg_graph::{Numbers, numbers_at};
use pg_sets_own::{ListedStart, WordStarts, own_starts, starts_of_words};
use pg_start::Start;
use std::alloc::{AllocError, Global};
use std::collections::BTreeMap;

/// Adds a set that holds a start by itself.
fn add_origin(
    alloc: Global,
    origins: &mut BTreeMap<ListedStart, Numbers>,
    listed: ListedStart,
    set: usize,
) -> Result<(), AllocError>
    ensures held { OnOk result ((other : ListedStart) (v : ℕ) →
        HoldsIt origins.new other v ↔ (HoldsIt origins.old other v ⊎ ((listed ≡ other) × (set ≡ v)))) }
    ensures there { OnOk result ((other : ListedStart) → IsThere origins.new other → IsThere origins.old other ⊎ (listed ≡ other)) }
{
    let mut sets = taken_sets(alloc, origins, &listed);
    sets.push(set)?;
    origins.insert(listed, sets)?;
    Ok(())
}

/// Removes the sets of a start from the map and returns them; there may be none.
pub(crate) fn taken_sets(
    alloc: Global,
    origins: &mut BTreeMap<ListedStart, Numbers>,
    listed: &ListedStart,
) -> Numbers
    ensures sets { result ≡ sets_of origins.old listed.now }
    ensures others { (other : ListedStart) → is_eq (start_order listed.now other) ≡ false →
        get start_order origins.new other ≡ get start_order origins.old other }
{
    match origins.remove(listed) {
        Some(sets) => sets,
        None => Numbers::new(alloc),
    }
}

/// Adds a set to each of the starts that it holds by itself (ours).
pub fn add_own(
    alloc: Global,
    origins: &mut BTreeMap<ListedStart, Numbers>,
    own: Vec<ListedStart>,
    set: usize,
) -> Result<(), AllocError>
    ensures held { OnOk result ((other : ListedStart) (v : ℕ) →
        HoldsIt origins.new other v ↔ (HoldsIt origins.old other v ⊎ (IsAmong own.items other × (set ≡ v)))) }
    ensures there { OnOk result ((other : ListedStart) → IsThere origins.new other → IsThere origins.old other ⊎ IsAmong own.items other) }
{
    for listed in own {
        add_origin(alloc, origins, listed, set)?;
    }
    Ok(())
}

/// What the starts that a node gives by itself depend on.
#[derive(Clone, Copy)]
struct Basis<'g> {
    grammar: &'g Grammar,
    /// What its class items contain.
    classes: &'g [Class],
    /// The starts of its word items.
    words: &'g WordStarts,
}

/// Adds the sets that hold a start because of one node: its own first set, and the follow set of an expression's term.
fn add_node(
    alloc: Global,
    basis: &Basis<'_>,
    origins: &mut BTreeMap<ListedStart, Numbers>,
    number: usize,
    node: &Node,
) -> Result<(), AllocError>
    requires classes { AreClassesOf basis.now.grammar.now basis.now.classes.now }
    requires words { AreWordStarts basis.now.grammar.now basis.now.words.now }
    ensures held { OnOk result ((other : ListedStart) (v : ℕ) →
        HoldsIt origins.new other v ↔ (HoldsIt origins.old other v ⊎
        (SourceAt basis.now.grammar.now number node.now other.start v × IsListed basis.now.grammar.now other))) }
    ensures there { OnOk result ((other : ListedStart) → IsThere origins.new other → IsThere origins.old other ⊎ IsListed basis.now.grammar.now other) }
    ensures plain { OnOk result (IsPlain basis.now.grammar.now node.now → (start : StartKind) × OwnStart basis.now.grammar.now node.now start) }
{
    let own = own_starts(alloc, basis.grammar, basis.classes, basis.words, node)?;
    add_own(alloc, origins, own, number)?;
    if let Form::Expression(_, term) = node {
        let operators = own_starts(alloc, basis.grammar, basis.classes, basis.words, node)?;
        let set = follow_of(basis.grammar.nodes().len(), term.index());
        add_own(alloc, origins, operators, set)?;
    }
    Ok(())
}

/// For each start that a node gives by itself, the sets that hold it by themselves: the node's own first set, and the follow set of an expression's term
/// (ours).
pub fn origins_of_nodes(
    alloc: Global,
    grammar: &Grammar,
    classes: &[Class],
    words: &WordStarts,
) -> Result<BTreeMap<ListedStart, Numbers>, AllocError>
    requires classes { AreClassesOf grammar.now classes.now }
    requires words { AreWordStarts grammar.now words.now }
    ensures { IfOk result (AreSoManyOrigins grammar.now (length grammar.now.nodes)) }
{
    let readers = readers_of_words(alloc, grammar)?;
    let mut origins = origins_of_items(alloc, grammar, words, readers.as_slice())?;
    let basis = Basis {
        grammar,
        classes,
        words,
    };
    for (number, node) in grammar.nodes().iter().enumerate() {
        if item_read(node).is_none() {
            add_node(alloc, &basis, &mut origins, number, node)?;
        }
    }
    Ok(origins)
}

/// For each word start the nodes that read the words, from the readers of each word item.
fn origins_of_items(
    alloc: Global,
    grammar: &Grammar,
    words: &WordStarts,
    readers: &[Numbers],
) -> Result<BTreeMap<ListedStart, Numbers>, AllocError>
    requires words { AreWordStarts grammar.now words.now }
    requires readers { AreReaders grammar.now (length grammar.now.nodes) readers.now }
    ensures { IfOk result (AreItemOrigins grammar.now (length grammar.now.words)) }
{
    let mut origins = BTreeMap::new(alloc);
    for (item, listed) in words.items.iter().enumerate() {
        let listed = listed.copy(alloc)?;
        add_readers(alloc, &mut origins, listed, numbers_at(readers, item))?;
    }
    Ok(origins)
}

/// Adds the end to the follow set of the start rule.
fn add_end(
    alloc: Global,
    grammar: &Grammar,
    origins: &mut BTreeMap<ListedStart, Numbers>,
) -> Result<(), AllocError>
    requires { AreSoManyOrigins grammar.now (length grammar.now.nodes) origins.now }
    ensures { OnOk result (AreOrigins grammar.now origins.new) }
{
    let count = grammar.nodes().len();
    if let Some(rule) = grammar.rules().get(grammar.start_rule().index()) {
        let start = Start::end();
        let set = follow_of(count, rule.body.index());
        add_origin(alloc, origins, ListedStart { start, word: 0 }, set)?;
    }
    Ok(())
}

/// Starts in order, each with the sets that hold it by themselves.
#[derive(Drop)]
pub struct Listing {
    /// The starts.
    pub starts: Vec<ListedStart>,
    /// For each start the numbers of its sets.
    pub origins: Vec<Numbers>,
}

/// The starts of the grammar.
pub(crate) fn listed_starts(alloc: Global, grammar: &Grammar) -> Result<Listing, AllocError>
    ensures { IfOk result (λ listing. AreListed grammar.now listing.starts.items listing.origins.items) }
{
    let classes = classes_of_items(alloc, grammar.class_items())?;
    let words = starts_of_words(alloc, grammar, classes.as_slice())?;
    let mut origins = origins_of_nodes(alloc, grammar, classes.as_slice(), &words)?;
    add_end(alloc, grammar, &mut origins)?;
    listed(alloc, origins)
}

/// The starts of a map in order, each with its sets (ours).
pub fn listed(alloc: Global, origins: BTreeMap<ListedStart, Numbers>) -> Result<Listing, AllocError>
    ensures entries { IfOk result (λ listing. (listing.starts.items ≡ keys origins) × (listing.origins.items ≡ values origins)) }
    ensures ordered { IsOrdered start_order origins }
{
    let mut rest = origins;
    let mut starts = Vec::new(alloc);
    let mut sets = Vec::new(alloc);
    let _count = rest.len();
    while let Some((start, numbers)) = rest.pop_first() {
        starts.push(start)?;
        sets.push(numbers)?;
    }
    Ok(Listing {
        starts,
        origins: sets,
    })
}
