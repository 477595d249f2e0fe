//! All starts of the grammar and of the claims, each with the sets that hold it by themselves.
//!
//! The starts that nodes give by themselves come from `pg_sets`. A rule's two claimed sets hold its claimed starts, and the set behind
//! the start rule holds the end.

ghost use Rattle.std.specs.Prelude.{◌≡◌, ◌↔◌, ◌⊎◌, ◌∷◌, ℕ, [], length, IfOk, OnOk};
ghost use Rattle.pg_sets_own.specs.Listed.{IsListed};
ghost use Rattle.pg_sets_own.specs.OperatorStarts.{AreOperatorStarts};
ghost use Rattle.pg_sets_own.specs.Own.{AreWordStarts};
ghost use Rattle.pg_sets_own.specs.Words.{AreClassesOf};
ghost use Rattle.pg_sets_own.specs.declared.listed.ListedStart.{ListedStart};
ghost use Rattle.pg_sets.specs.Origins.{HoldsIt, IsThere};
ghost use Rattle.pg_start.specs.declared.kind.StartKind.{StartKind};
ghost use Rattle.pg_grammar_value.specs.Grammar.{IsGrammar};
ghost use Rattle.pg_certificate_verify.specs.Edges.{rule_set, of_behind};
ghost use Rattle.pg_certificate_verify.specs.SetsBy.{AreListedBy, IsClaimOf, ClaimsBelow};
ghost use Rattle.pg_certificate_verify.specs.Standing.{IsClaimedAs, ListsClaims};

use crate::claims::{claimed_first, claimed_follow};
use crate::edges::{BEHIND, FIRST, FOLLOW, rule_set};
use crate::starts::{Basis, starts_of_claims};
use pg_certificate::{ClaimedStart, RuleClaim};
use pg_class::Class;
use pg_grammar_classes::classes_of_items;
use pg_grammar_value::Grammar;
use pg_graph::Numbers;
use pg_sets::{Listing, add_own, listed, origins_of_nodes};
use pg_sets_own::{ListedStart, WordStarts, operator_starts, starts_of_words};
use pg_start::Start;
use std::alloc::{AllocError, Global};
use std::collections::BTreeMap;

/// The starts of the grammar and of the claims in order, each with the sets that hold it by themselves.
pub(crate) fn claim_origins(
    alloc: Global,
    grammar: &Grammar,
    claims: &[RuleClaim],
) -> Result<Listing, AllocError>
    ensures { IfOk result (λ listing. AreListedBy grammar.now claims.now listing.starts.items listing.origins.items) }
{
    let classes = classes_of_items(alloc, grammar.class_items())?;
    let words = starts_of_words(alloc, grammar, classes.as_slice())?;
    list_origins(alloc, grammar, classes.as_slice(), &words, claims)
}

/// As `claim_origins`, from the classes of the class items and of the word items.
fn list_origins(
    alloc: Global,
    grammar: &Grammar,
    classes: &[Class],
    words: &WordStarts,
    claims: &[RuleClaim],
) -> Result<Listing, AllocError>
    requires classes { AreClassesOf grammar.now classes.now }
    requires words { AreWordStarts grammar.now words.now }
    ensures { IfOk result (λ listing. AreListedBy grammar.now claims.now listing.starts.items listing.origins.items) }
{
    let operators = operator_starts(alloc, grammar)?;
    let basis = Basis {
        grammar,
        classes,
        words,
        operators: &operators,
    };
    let mut origins = origins_of_nodes(alloc, grammar, classes, words)?;
    add_claims(alloc, &basis, claims, &mut origins)?;
    add_end(alloc, grammar, &mut origins)?;
    listed(alloc, origins)
}

/// Adds the claimed starts of each rule.
#[tactic(auto, using(crate::proofs::Coming::no_rules_yet, crate::proofs::Coming::rule_more, crate::proofs::Coming::there_more))]
fn add_claims(
    alloc: Global,
    basis: &Basis<'_>,
    claims: &[RuleClaim],
    origins: &mut BTreeMap<ListedStart, Numbers>,
) -> Result<(), AllocError>
    requires classes { AreClassesOf basis.now.grammar.now basis.now.classes.now }
    requires words { AreWordStarts basis.now.grammar.now basis.now.words.now }
    requires operators { AreOperatorStarts basis.now.grammar.now basis.now.operators.now }
    ensures held { OnOk result ((other : ListedStart) (v : ℕ) →
        HoldsIt origins.new other v ↔ (HoldsIt origins.old other v ⊎ ClaimsBelow basis.now.grammar.now claims.now (length basis.now.grammar.now.rules) other v)) }
    ensures there { OnOk result ((other : ListedStart) → IsThere origins.new other → IsThere origins.old other ⊎ IsListed basis.now.grammar.now other) }
{
    let rules = basis.grammar.rules().len();
    for rule in 0..rules {
        add_rule(alloc, basis, claims, rule, origins)?;
    }
    Ok(())
}

/// Adds the claimed starts of this rule.
#[tactic(auto, using(crate::proofs::Coming::rule_held, crate::proofs::Coming::there_more))]
fn add_rule(
    alloc: Global,
    basis: &Basis<'_>,
    claims: &[RuleClaim],
    rule: usize,
    origins: &mut BTreeMap<ListedStart, Numbers>,
) -> Result<(), AllocError>
    requires classes { AreClassesOf basis.now.grammar.now basis.now.classes.now }
    requires words { AreWordStarts basis.now.grammar.now basis.now.words.now }
    requires operators { AreOperatorStarts basis.now.grammar.now basis.now.operators.now }
    ensures held { OnOk result ((other : ListedStart) (v : ℕ) →
        HoldsIt origins.new other v ↔ (HoldsIt origins.old other v ⊎ IsClaimOf basis.now.grammar.now claims.now rule other v)) }
    ensures there { OnOk result ((other : ListedStart) → IsThere origins.new other → IsThere origins.old other ⊎ IsListed basis.now.grammar.now other) }
{
    let grammar = basis.grammar;
    let count = grammar.nodes().len();
    let rules = grammar.rules().len();
    let first = starts_of_claims(alloc, basis, claimed_first(claims, rule))?;
    let follow = starts_of_claims(alloc, basis, claimed_follow(claims, rule))?;
    add_starts(
        alloc,
        grammar,
        claimed_first(claims, rule),
        first,
        rule_set(count, rules, FIRST, rule),
        origins,
    )?;
    add_starts(
        alloc,
        grammar,
        claimed_follow(claims, rule),
        follow,
        rule_set(count, rules, FOLLOW, rule),
        origins,
    )?;
    Ok(())
}

/// Adds a set to each start for which one of these claimed ones stands.
#[tactic(auto, using(crate::proofs::Coming::claims_held, crate::proofs::Coming::claims_there))]
fn add_starts(
    alloc: Global,
    grammar: &Grammar,
    claimed: &[ClaimedStart],
    starts: Vec<ListedStart>,
    set: usize,
    origins: &mut BTreeMap<ListedStart, Numbers>,
) -> Result<(), AllocError>
    requires { ListsClaims grammar.now claimed.now starts.items }
    ensures held { OnOk result ((other : ListedStart) (v : ℕ) →
        HoldsIt origins.new other v ↔ (HoldsIt origins.old other v ⊎ (IsClaimedAs grammar.now claimed.now other × (set ≡ v)))) }
    ensures there { OnOk result ((other : ListedStart) → IsThere origins.new other → IsThere origins.old other ⊎ IsListed grammar.now other) }
{
    add_own(alloc, origins, starts, set)?;
    Ok(())
}

/// Adds the end to the set behind the start rule.
fn add_end(
    alloc: Global,
    grammar: &Grammar,
    origins: &mut BTreeMap<ListedStart, Numbers>,
) -> Result<(), AllocError>
    ensures held { OnOk result ((other : ListedStart) (v : ℕ) →
        HoldsIt origins.new other v ↔ (HoldsIt origins.old other v
        ⊎ ((◌≡◌ {A = ListedStart} (record { start = StartKind.End; word = 0 }) other)
        × (rule_set (length grammar.now.nodes) (length grammar.now.rules) of_behind grammar.now.start ≡ v)))) }
    ensures there { OnOk result ((other : ListedStart) → IsThere origins.new other → IsThere origins.old other ⊎ IsListed grammar.now other) }
{
    let count = grammar.nodes().len();
    let rules = grammar.rules().len();
    let mut ends = Vec::new(alloc);
    let start = Start::end();
    ends.push(ListedStart { start, word: 0 })?;
    let behind = rule_set(count, rules, BEHIND, grammar.start_rule().index());
    add_own(alloc, origins, ends, behind)?;
    Ok(())
}
