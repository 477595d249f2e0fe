//! Runs of characters of a class.

ghost use Rattle.std.specs.Prelude.{◌≡◌, ◌≤◌, ◌+◌, drop, length, Some};
ghost use Rattle.std.specs.List.{take_while};
ghost use Rattle.pg_grammar_form.specs.ClassItems.{has_character};
ghost use Rattle.pg_grammar_value.specs.Sites.{class_at};
ghost use Rattle.pg_language.specs.Runs.{run_at, past_run};

use pg_grammar_classes::ClassSite;
use pg_grammar_form::OperatorsItem;
use pg_grammar_value::Grammar;
use pg_text::Text;

/// The run of operator characters at the place. The caller owes that the operators item is the grammar's.
#[tactic(auto, using(pg_grammar_value::proofs::Sites::class_at_operators))]
pub fn run_at<'a>(
    grammar: &Grammar,
    text: &'a Text,
    item: &OperatorsItem,
    place: usize,
) -> &'a [char]
    requires item { grammar.now.operators ≡ Some item.now }
    requires place { place ≤ length text.now }
    ensures value { result.now ≡ run_at grammar.now text.now item.now.class place }
    ensures within { place + length result.now ≤ length text.now }
    ensures limit { length text.now ≤ 1048576 }
{
    run_of(grammar, text, ClassSite::Operators, place)
}

/// The place after the gap at this place. The caller owes that the operators item is the grammar's.
#[tactic(auto, using(pg_grammar_value::proofs::Sites::class_at_gap))]
pub fn past_gap(grammar: &Grammar, text: &Text, item: &OperatorsItem, place: usize) -> usize
    requires item { grammar.now.operators ≡ Some item.now }
    requires place { place ≤ length text.now }
    ensures value { result ≡ past_run grammar.now text.now item.now.gap place }
    ensures within { result ≤ length text.now }
    ensures limit { length text.now ≤ 1048576 }
{
    place + run_of(grammar, text, ClassSite::Gap, place).len()
}

/// The run of a class expression's characters at the place.
pub fn run_of<'a>(grammar: &Grammar, text: &'a Text, class: ClassSite, place: usize) -> &'a [char]
    requires { place ≤ length text.now }
    ensures value { result.now ≡ run_at grammar.now text.now (class_at grammar.now class) place }
    ensures within { place + length result.now ≤ length text.now }
    ensures limit { length text.now ≤ 1048576 }
{
    let rest = after(text.characters(), place);
    &rest[..run_length(grammar, class, rest)]
}

/// The characters from the place on.
pub(crate) fn after(characters: &[char], place: usize) -> &[char]
    ensures { result.now ≡ drop place characters.now }
{
    &characters[place.min(characters.len())..]
}

/// The length of the run of the class at the front.
fn run_length(grammar: &Grammar, class: ClassSite, characters: &[char]) -> usize
    ensures value { result ≡ length (take_while (has_character grammar.now.classes (class_at grammar.now class)) characters.now) }
    ensures within { result ≤ length characters.now }
{
    characters
        .iter()
        .take_while(|c| grammar.contains(class, **c))
        .count()
}
