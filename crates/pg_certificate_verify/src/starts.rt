//! The starts for which claimed ones stand.
//!
//! A claimed start that the grammar can't have, such as a word of no item or a key without a character, stands for none.

ghost use Rattle.std.specs.Prelude.{◌≡◌, ◌↔◌, ◌∷◌, [], IfOk};
ghost use Rattle.pg_sets_own.specs.OperatorStarts.{AreBothStarts, AreOperatorStarts};
ghost use Rattle.pg_sets_own.specs.Own.{IsAmong, AreWordStarts};
ghost use Rattle.pg_sets_own.specs.Words.{AreClassesOf};
ghost use Rattle.pg_sets_own.specs.declared.listed.ListedStart.{ListedStart};
ghost use Rattle.pg_start.specs.declared.kind.StartKind.{StartKind};
ghost use Rattle.pg_certificate_verify.specs.Standing.{StandsAs, ListsClaims};

use pg_certificate::ClaimedStart;
use pg_class::Class;
use pg_grammar_form::{Form, Leaf, WordId};
use pg_grammar_value::Grammar;
use pg_sets_own::{ListedStart, OperatorStarts, WordStarts, own_starts};
use pg_start::Start;
use pg_text::Characters;
use std::alloc::{AllocError, Global};

/// What decides for which starts claimed ones stand (ours).
#[derive(Clone, Copy)]
pub(crate) struct Basis<'g> {
    pub grammar: &'g Grammar,
    /// What its class items contain.
    pub classes: &'g [Class],
    /// The starts of its word items.
    pub words: &'g WordStarts,
    /// The starts of its operators, if it has an operators item.
    pub operators: &'g Option<OperatorStarts>,
}

/// The starts for which these claimed ones stand.
pub(crate) fn starts_of_claims(
    alloc: Global,
    basis: &Basis<'_>,
    claimed: &[ClaimedStart],
) -> Result<Vec<ListedStart>, AllocError>
    requires classes { AreClassesOf basis.now.grammar.now basis.now.classes.now }
    requires words { AreWordStarts basis.now.grammar.now basis.now.words.now }
    requires operators { AreOperatorStarts basis.now.grammar.now basis.now.operators.now }
    ensures { IfOk result (λ starts. ListsClaims basis.now.grammar.now claimed.now starts.items) }
{
    let mut starts = Vec::new(alloc);
    for one in claimed {
        let mut more = starts_of_claim(alloc, basis, one)?;
        starts.append(&mut more)?;
    }
    Ok(starts)
}

/// The start for which a claimed one stands, or none.
#[tactic(auto, using(crate::proofs::Standing::class_stands, crate::proofs::Standing::end_stands))]
fn starts_of_claim(
    alloc: Global,
    basis: &Basis<'_>,
    claimed: &ClaimedStart,
) -> Result<Vec<ListedStart>, AllocError>
    requires classes { AreClassesOf basis.now.grammar.now basis.now.classes.now }
    requires words { AreWordStarts basis.now.grammar.now basis.now.words.now }
    requires operators { AreOperatorStarts basis.now.grammar.now basis.now.operators.now }
    ensures { IfOk result (λ starts. (listed : ListedStart) → IsAmong starts.items listed ↔ StandsAs basis.now.grammar.now claimed.now listed) }
{
    match claimed {
        ClaimedStart::Class(class) => class_start(alloc, class),
        ClaimedStart::Key(key, excluded) => key_starts(alloc, basis.grammar, key, excluded),
        ClaimedStart::Word(word) => {
            word_starts(alloc, basis.grammar, basis.classes, basis.words, *word)
        }
        ClaimedStart::Operator => claimed_operators(alloc, basis.grammar, basis.operators),
        ClaimedStart::End => plain(alloc, Start::end()),
    }
}

/// The start of a class.
fn class_start(alloc: Global, class: &Class) -> Result<Vec<ListedStart>, AllocError>
    ensures { IfOk result (λ starts. starts.items ≡ record { start = StartKind.Class class.now; word = 0 } ∷ []) }
{
    let start = Start::class(class)?;
    plain(alloc, start)
}

/// The starts of the words of a word item.
#[tactic(auto, using(crate::proofs::Standing::word_stands))]
fn word_starts(
    alloc: Global,
    grammar: &Grammar,
    classes: &[Class],
    words: &WordStarts,
    word: WordId,
) -> Result<Vec<ListedStart>, AllocError>
    requires classes { AreClassesOf grammar.now classes.now }
    requires words { AreWordStarts grammar.now words.now }
    ensures { IfOk result (λ starts. (listed : ListedStart) → IsAmong starts.items listed ↔ StandsAs grammar.now (ClaimedStart.Word word) listed) }
{
    let leaf = Form::Leaf(Leaf::Word(word));
    let starts = own_starts(alloc, grammar, classes, words, &leaf);
    drop(leaf);
    starts
}

/// The start of a key; none if the key has no character.
#[tactic(auto, using(crate::proofs::Standing::key_stands, crate::proofs::Standing::no_key_stands))]
fn key_starts(
    alloc: Global,
    grammar: &Grammar,
    key: &Characters,
    excluded: &Class,
) -> Result<Vec<ListedStart>, AllocError>
    ensures { IfOk result (λ starts. (listed : ListedStart) → IsAmong starts.items listed ↔ StandsAs grammar.now (ClaimedStart.Key key.now excluded.now) listed) }
{
    if key.as_slice().is_empty() {
        return Ok(Vec::new(alloc));
    }
    plain(alloc, Start::key(alloc, key.as_slice(), excluded)?)
}

/// The start of the operators; none if the grammar has no operators item.
#[tactic(auto, using(crate::proofs::Standing::no_operator_stands))]
fn claimed_operators(
    alloc: Global,
    grammar: &Grammar,
    operators: &Option<OperatorStarts>,
) -> Result<Vec<ListedStart>, AllocError>
    requires { AreOperatorStarts grammar.now operators.now }
    ensures { IfOk result (λ starts. (listed : ListedStart) → IsAmong starts.items listed ↔ StandsAs grammar.now ClaimedStart.Operator listed) }
{
    match operators {
        Some(both) => operator_start(alloc, grammar, both),
        None => Ok(Vec::new(alloc)),
    }
}

/// The operator start among these.
fn operator_start(
    alloc: Global,
    grammar: &Grammar,
    both: &OperatorStarts,
) -> Result<Vec<ListedStart>, AllocError>
    requires { AreBothStarts grammar.now both.now }
    ensures { IfOk result (λ starts. (listed : ListedStart) → IsAmong starts.items listed ↔ StandsAs grammar.now ClaimedStart.Operator listed) }
{
    let operator = both.operator.copy(alloc)?;
    let starts = one(alloc, operator)?;
    Ok(starts)
}

/// The list of this one start.
fn one(alloc: Global, listed: ListedStart) -> Result<Vec<ListedStart>, AllocError>
    ensures { IfOk result (λ starts. starts.items ≡ listed ∷ []) }
{
    let mut starts = Vec::new(alloc);
    starts.push(listed)?;
    Ok(starts)
}

/// The list of this one start, which isn't a word.
fn plain(alloc: Global, start: Start) -> Result<Vec<ListedStart>, AllocError>
    ensures { IfOk result (λ starts. starts.items ≡ record { start = start; word = 0 } ∷ []) }
{
    one(alloc, ListedStart { start, word: 0 })
}
