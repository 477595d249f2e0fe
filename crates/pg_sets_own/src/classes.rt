//! The classes of a grammar's class expressions.
ghost use Rattle.std.specs.Prelude.{IfOk};
ghost use Rattle.pg_sets_own.specs.OwnStarts.{IsClassOf};
ghost use Rattle.pg_sets_own.specs.Words.{AreClassesOf};

use pg_class::Class;
use pg_grammar_classes::class_of;
use pg_grammar_form::ClassExpression;
use pg_grammar_value::Grammar;
use std::alloc::{AllocError, Global};

/// The class of an expression of the grammar, from the classes of its class items.
pub(crate) fn class_in_grammar(
    alloc: Global,
    grammar: &Grammar,
    items: &[Class],
    expression: &ClassExpression,
) -> Result<Class, AllocError>
    requires { AreClassesOf grammar.now items.now }
    ensures { IfOk result (IsClassOf grammar.now expression.now) }
{
    let class = class_of(alloc, items, expression)?;
    let _ranges = class.ranges();
    let _items = grammar.class_items();
    Ok(class)
}
