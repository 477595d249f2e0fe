//! How operators and the gaps after them begin.
//!
//! Both starts are computed from the operators item alone. A grammar may declare operators and read none, and then no set has
//! the starts.
ghost use Rattle.std.specs.Prelude.{◌≡◌, ◌↔◌, Some, IfOk};
ghost use Rattle.pg_start.specs.declared.kind.StartKind.{StartKind};
ghost use Rattle.pg_sets_own.specs.Listed.{IsListed};
ghost use Rattle.pg_sets_own.specs.OperatorStarts.{AreBothStarts, AreOperatorStarts, IsGapStart};
ghost use Rattle.pg_sets_own.specs.OwnStarts.{IsOperatorStart};
ghost use Rattle.pg_sets_own.specs.Words.{AreClassesOf};

use crate::classes::class_in_grammar;
use crate::listed::ListedStart;
use crate::words::{classes_of_words, listed_words};
use pg_class::Class;
use pg_grammar_classes::classes_of_items;
use pg_grammar_form::OperatorsItem;
use pg_grammar_value::Grammar;
use pg_start::Start;
use std::alloc::{AllocError, Global};

/// The starts of operators and of gaps.
#[derive(Drop)]
pub struct OperatorStarts {
    /// An operator: a run of operator characters that isn't reserved.
    pub operator: ListedStart,
    /// A character that is skipped after an operator.
    pub gap: Start,
}

/// The starts of a grammar's operators and gaps; none where it has no operators item.
pub fn operator_starts(
    alloc: Global,
    grammar: &Grammar,
) -> Result<Option<OperatorStarts>, AllocError>
    ensures { IfOk result (AreOperatorStarts grammar.now) }
{
    match grammar.operators_item() {
        Some(item) => Ok(Some(both_starts(alloc, grammar, item)?)),
        None => Ok(None),
    }
}

/// The two starts of an operators item.
fn both_starts(
    alloc: Global,
    grammar: &Grammar,
    item: &OperatorsItem,
) -> Result<OperatorStarts, AllocError>
    requires { grammar.now.operators ≡ Some item.now }
    ensures { IfOk result (AreBothStarts grammar.now) }
{
    let classes = classes_of_items(alloc, grammar.class_items())?;
    let operator = operator_start(alloc, grammar, classes.as_slice(), item)?;
    let gap = gap_start(alloc, grammar, classes.as_slice(), item)?;
    Ok(OperatorStarts { operator, gap })
}

/// The operator start of an operators item, from the classes of the class items.
fn operator_start(
    alloc: Global,
    grammar: &Grammar,
    classes: &[Class],
    item: &OperatorsItem,
) -> Result<ListedStart, AllocError>
    requires item { grammar.now.operators ≡ Some item.now }
    requires classes { AreClassesOf grammar.now classes.now }
    ensures named { IfOk result (IsListed grammar.now) }
    ensures operator { IfOk result (λ listed. (start : StartKind) → IsOperatorStart grammar.now start ↔ (listed.start ≡ start)) }
{
    let words = classes_of_words(alloc, grammar, classes)?;
    let class = class_in_grammar(alloc, grammar, classes, &item.class)?;
    listed_words(grammar, words.as_slice(), &class, &class, &item.reserved)
}

/// The gap start of an operators item, from the classes of the class items.
fn gap_start(
    alloc: Global,
    grammar: &Grammar,
    classes: &[Class],
    item: &OperatorsItem,
) -> Result<Start, AllocError>
    requires item { grammar.now.operators ≡ Some item.now }
    requires classes { AreClassesOf grammar.now classes.now }
    ensures { IfOk result (λ gap. (start : StartKind) → IsGapStart grammar.now start ↔ (gap ≡ start)) }
{
    let gap = class_in_grammar(alloc, grammar, classes, &item.gap)?;
    Start::class(&gap)
}
