//! The places of the parts of a declaration.

ghost use Rattle.std.specs.Prelude.{◌≡◌, Some};

use pg_grammar_form::OperatorsItem;
use pg_grammar_value::Grammar;
use pg_language_declarations::{past_gap, run_at};
use pg_text::Text;

/// The places of the parts of a declaration.
#[derive(Clone, Copy)]
pub(crate) struct Declared {
    /// Behind its keyword.
    pub keyword_end: usize,
    /// Before its digit.
    pub digit: usize,
    /// Before its symbol.
    pub symbol: usize,
    /// Behind its symbol.
    pub symbol_end: usize,
}

/// The places of the parts of the declaration that begins at this place.
pub(crate) fn parts_of_declaration(grammar: &Grammar, text: &Text, place: usize) -> Declared {
    let keyword_end = past_keyword(text, place);
    match grammar.operators_item() {
        Some(item) => {
            let digit = after_gap(grammar, text, item, keyword_end);
            let symbol = after_gap(grammar, text, item, digit.saturating_add(1));
            Declared {
                keyword_end,
                digit,
                symbol,
                symbol_end: after_symbol(grammar, text, item, symbol),
            }
        }
        None => Declared {
            keyword_end,
            digit: keyword_end,
            symbol: keyword_end,
            symbol_end: keyword_end,
        },
    }
}

/// The place after a keyword: after the last letter from a to z.
fn past_keyword(text: &Text, place: usize) -> usize {
    let characters = text.characters();
    let rest = &characters[place.min(characters.len())..];
    let count = rest.iter().take_while(|c| c.is_ascii_lowercase()).count();
    place.saturating_add(count)
}

/// The place after the characters of the gap.
fn after_gap(grammar: &Grammar, text: &Text, item: &OperatorsItem, place: usize) -> usize
    requires { grammar.now.operators ≡ Some item.now }
{
    past_gap(grammar, text, item, place.min(text.len()))
}

/// The place after a symbol.
fn after_symbol(grammar: &Grammar, text: &Text, item: &OperatorsItem, place: usize) -> usize
    requires { grammar.now.operators ≡ Some item.now }
{
    let symbol = run_at(grammar, text, item, place.min(text.len()));
    place.saturating_add(symbol.len())
}
