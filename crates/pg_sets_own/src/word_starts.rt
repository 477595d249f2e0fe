//! The starts of words and operators, computed once: reserved texts may be many, and many
//! nodes may read them.
ghost use Rattle.std.specs.Prelude.{◌≡◌, ℕ, IfOk};
ghost use Rattle.pg_grammar_form.specs.declared.form.Form.TheVariants.{Expression};
ghost use Rattle.pg_grammar_form.specs.declared.used.OperatorBuilders.{OperatorBuilders};
ghost use Rattle.pg_sets_own.specs.Own.{AreOwn, AreItemStarts, AreWordStarts};
ghost use Rattle.pg_sets_own.specs.Words.{AreClassesOf, AreWordClasses};

use crate::classes::class_in_grammar;
use crate::listed::ListedStart;
use crate::own::one;
use crate::words::{WordClasses, classes_of_words, listed_words};
use pg_class::Class;
use pg_grammar_value::Grammar;
use std::alloc::{AllocError, Global};

/// The starts of a grammar's words and operators, as nodes give them.
#[derive(Drop)]
pub struct WordStarts {
    /// For each word item the start of its words, in file order.
    pub items: Vec<ListedStart>,
    /// The start of the operators; none where there is no operators item.
    pub(crate) operators: Vec<ListedStart>,
}

/// The starts of the words and of the operators, from the classes of the class items.
pub fn starts_of_words(
    alloc: Global,
    grammar: &Grammar,
    classes: &[Class],
) -> Result<WordStarts, AllocError>
    requires { AreClassesOf grammar.now classes.now }
    ensures { IfOk result (AreWordStarts grammar.now) }
{
    let words = classes_of_words(alloc, grammar, classes)?;
    let items = item_starts(alloc, grammar, words.as_slice())?;
    let operators = operator_starts(alloc, grammar, classes, words.as_slice())?;
    Ok(WordStarts { items, operators })
}

/// For each word item the start of its words.
fn item_starts(
    alloc: Global,
    grammar: &Grammar,
    words: &[WordClasses],
) -> Result<Vec<ListedStart>, AllocError>
    requires { AreWordClasses grammar.now words.now }
    ensures { IfOk result (λ starts. AreItemStarts grammar.now starts.items) }
{
    let items = grammar.word_items();
    let mut starts = Vec::new(alloc);
    let mut number = 0;
    while number < items.len() {
        let (item, classes) = (&items[number], &words[number]);
        let listed = listed_words(grammar, words, &classes.head, &classes.rest, &item.reserved)?;
        starts.push(listed)?;
        number += 1;
    }
    Ok(starts)
}

/// The operator start as a list; none where there is no operators item.
fn operator_starts(
    alloc: Global,
    grammar: &Grammar,
    classes: &[Class],
    words: &[WordClasses],
) -> Result<Vec<ListedStart>, AllocError>
    requires classes { AreClassesOf grammar.now classes.now }
    requires words { AreWordClasses grammar.now words.now }
    ensures { IfOk result (λ own. (builders : OperatorBuilders) (term : ℕ) → AreOwn grammar.now (Expression builders term) own.items) }
{
    match grammar.operators_item() {
        Some(item) => {
            let class = class_in_grammar(alloc, grammar, classes, &item.class)?;
            let listed = listed_words(grammar, words, &class, &class, &item.reserved)?;
            one(alloc, listed)
        }
        None => Ok(Vec::new(alloc)),
    }
}
