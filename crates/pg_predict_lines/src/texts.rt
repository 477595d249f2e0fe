//! The names of rules and the printed forms of starts, for the lines of findings.
ghost use Rattle.std.specs.Prelude.{◌≡◌, IfOk, map, string_bytes};
ghost use Rattle.pg_sets_own.specs.PrintedStarts.{start_text};
ghost use Rattle.pg_predict.specs.Findings.{name_text};
ghost use Rattle.pg_predict_lines.specs.Lines.{AreTextsOf};

use pg_grammar_value::{Grammar, Rule};
use pg_predict::{Refused, Texts};
use pg_sets_own::{ListedStart, operator_starts, printed_start};
use std::alloc::{AllocError, Global};

/// The names of a grammar's rules, and the printed forms of its sets' starts and of the operator start (ours).
pub fn texts_of(alloc: Global, refused: &Refused) -> Result<Texts, AllocError>
    ensures { IfOk result (AreTextsOf refused.now) }
{
    let grammar = refused.grammar();
    let names = names(alloc, grammar.rules())?;
    let listed = start_texts(alloc, grammar, refused.sets().starts())?;
    let own = operator_text(alloc, grammar)?;
    Ok(Texts { names, listed, own })
}

/// The names of rules.
fn names(alloc: Global, rules: &[Rule]) -> Result<Vec<String>, AllocError>
    ensures { IfOk result (λ names. map string_bytes names.items ≡ map name_text rules.now) }
{
    let mut names = Vec::new(alloc);
    for rule in rules {
        names.push(format!(in alloc; "{}", rule.name)?)?;
    }
    Ok(names)
}

/// The printed forms of starts.
fn start_texts(
    alloc: Global,
    grammar: &Grammar,
    starts: &[ListedStart],
) -> Result<Vec<String>, AllocError>
    ensures { IfOk result (λ texts. map string_bytes texts.items ≡ map (start_text grammar.now) starts.now) }
{
    let mut texts = Vec::new(alloc);
    for listed in starts {
        texts.push(printed_start(alloc, grammar, listed)?)?;
    }
    Ok(texts)
}

/// The printed form of the operator start; that of the end if there are no operators, as in findings.
fn operator_text(alloc: Global, grammar: &Grammar) -> Result<String, AllocError> {
    match operator_starts(alloc, grammar)? {
        Some(both) => printed_start(alloc, grammar, &both.operator),
        None => String::from_str(alloc, "end"),
    }
}
