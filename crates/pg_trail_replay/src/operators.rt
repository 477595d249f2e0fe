//! Operators in a text, and their symbols in trees.

ghost use Rattle.std.specs.Prelude.{◌≡◌, ◌≤◌, Some, length};
ghost use Rattle.std.specs.List.{take_while};
ghost use Rattle.pg_grammar_form.specs.ClassItems.{has_character};
ghost use Rattle.pg_grammar_value.specs.Sites.{class_at};
ghost use Rattle.pg_trail_replay.specs.Tasks.{operator_end};

use crate::leaves::after;
use pg_grammar_classes::ClassSite;
use pg_grammar_form::OperatorsItem;
use pg_grammar_value::Grammar;
use pg_text::Text;

/// The end of an operator with this symbol and of the gap after it, if they stand at the place.
pub(crate) fn operator_end(
    grammar: &Grammar,
    text: &Text,
    item: &OperatorsItem,
    symbol: &[char],
    place: usize,
) -> Option<usize>
    requires { grammar.now.operators ≡ Some item.now }
    ensures { result ≡ operator_end grammar.now text.now item.now symbol.now place }
{
    let run = operator_run(grammar, item, after(text, place));
    if run != symbol {
        return None;
    }
    let past = place + run.len();
    Some(past + gap_run(grammar, item, after(text, past)).len())
}

/// The run of operator characters at the front.
#[tactic(auto, using(pg_grammar_value::proofs::Sites::class_at_operators))]
fn operator_run<'a>(grammar: &Grammar, item: &OperatorsItem, characters: &'a [char]) -> &'a [char]
    requires { grammar.now.operators ≡ Some item.now }
    ensures value { result.now ≡ take_while (has_character grammar.now.classes item.now.class) characters.now }
    ensures within { length result.now ≤ length characters.now }
{
    run_of(grammar, ClassSite::Operators, characters)
}

/// The run of gap characters at the front.
#[tactic(auto, using(pg_grammar_value::proofs::Sites::class_at_gap))]
fn gap_run<'a>(grammar: &Grammar, item: &OperatorsItem, characters: &'a [char]) -> &'a [char]
    requires { grammar.now.operators ≡ Some item.now }
    ensures value { result.now ≡ take_while (has_character grammar.now.classes item.now.gap) characters.now }
    ensures within { length result.now ≤ length characters.now }
{
    run_of(grammar, ClassSite::Gap, characters)
}

/// The run of the class's characters at the front.
#[tactic(auto, using(crate::proofs::Characters::run_taken))]
fn run_of<'a>(grammar: &Grammar, class: ClassSite, characters: &'a [char]) -> &'a [char]
    ensures value { result.now ≡ take_while (has_character grammar.now.classes (class_at grammar.now class)) characters.now }
    ensures within { length result.now ≤ length characters.now }
{
    &characters[..run_length(grammar, class, characters)]
}

/// The length of that run.
fn run_length(grammar: &Grammar, class: ClassSite, characters: &[char]) -> usize
    ensures value { result ≡ length (take_while (has_character grammar.now.classes (class_at grammar.now class)) characters.now) }
    ensures within { result ≤ length characters.now }
{
    characters
        .iter()
        .take_while(|c| grammar.contains(class, **c))
        .count()
}
