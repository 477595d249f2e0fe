//! Reading a text where a declaration may stand.

ghost use Rattle.std.specs.Prelude.{◌≡◌, ◌<◌, ◌≤◌, ◌+◌, length, slice_get, Some, IfSome};
ghost use Rattle.pg_grammar_form.specs.declared.decl.Role.{Role};
ghost use Rattle.pg_grammar_value.specs.Sites.{class_at};
ghost use Rattle.pg_language.specs.Runs.{keyword};
ghost use Rattle.pg_language.specs.Declarations.{declaration_at, digit_read, digit_value, keyword_read, symbol_read};
ghost use Rattle.pg_language_declarations.specs.Views.{declaration_of, IsProper};

use crate::keyword::{keyword, role_at};
use crate::run::{past_gap, run_at};
use pg_grammar_classes::ClassSite;
use pg_grammar_form::{OperatorsItem, Role};
use pg_grammar_value::Grammar;
use pg_text::Text;

/// An operator that a text declares.
#[derive(Clone, Copy)]
pub struct Declared<'a> {
    pub role: Role,
    /// From 0 to 9; 9 binds tightest.
    pub precedence: u8,
    /// At least one character.
    pub symbol: &'a [char],
    /// The place where the symbol begins.
    pub place: usize,
    /// The place after the declaration and its last gap.
    pub end: usize,
}

/// What a declaration's place has. Places are in characters from 0.
#[derive(Clone, Copy)]
pub enum Declaration<'a> {
    /// No keyword.
    NoKeyword,
    /// A keyword, and no digit at this place after it.
    NoDigit(usize),
    /// A keyword and a digit, and no symbol at this place after them.
    NoSymbol(usize),
    /// An operator.
    Declared(Declared<'a>),
}

/// Reads the declaration at the place of the text. No character of the class expression may follow its keyword. The caller owes that the operators item is
/// the grammar's. It takes no memory.
#[tactic(auto, using(crate::proofs::Proper::is_proper))]
pub fn declaration_at<'a>(
    grammar: &Grammar,
    text: &'a Text,
    item: &OperatorsItem,
    class: ClassSite,
    place: usize,
) -> Declaration<'a>
    requires { grammar.now.operators ≡ Some item.now }
    ensures value { declaration_of result ≡ declaration_at grammar.now text.now item.now (class_at grammar.now class) place }
    ensures proper { IsProper (declaration_of result) }
{
    match role_at(grammar, text, class, place) {
        Some(role) => {
            let digit = past_gap(grammar, text, item, place + keyword(role).len());
            from_digit(grammar, text, item, role, digit)
        }
        None => Declaration::NoKeyword,
    }
}

/// Reads on from the place of the digit.
fn from_digit<'a>(
    grammar: &Grammar,
    text: &'a Text,
    item: &OperatorsItem,
    role: Role,
    place: usize,
) -> Declaration<'a>
    requires { grammar.now.operators ≡ Some item.now }
    ensures { declaration_of result ≡ digit_read grammar.now text.now item.now role place (digit_value (slice_get text.now place)) }
{
    match digit_at(text, place) {
        Some(precedence) => {
            let symbol = past_gap(grammar, text, item, place + 1);
            from_symbol(grammar, text, item, role, precedence, symbol)
        }
        None => Declaration::NoDigit(place),
    }
}

/// Reads on from the place of the symbol.
fn from_symbol<'a>(
    grammar: &Grammar,
    text: &'a Text,
    item: &OperatorsItem,
    role: Role,
    precedence: u8,
    place: usize,
) -> Declaration<'a>
    requires item { grammar.now.operators ≡ Some item.now }
    requires place { place ≤ length text.now }
    ensures { declaration_of result ≡ symbol_read grammar.now text.now item.now role precedence place }
{
    let symbol = run_at(grammar, text, item, place);
    if symbol.is_empty() {
        return Declaration::NoSymbol(place);
    }
    let end = past_gap(grammar, text, item, place + symbol.len());
    Declaration::Declared(Declared {
        role,
        precedence,
        symbol,
        place,
        end,
    })
}

/// The value of the digit at the place, if there is one.
fn digit_at(text: &Text, place: usize) -> Option<u8>
    ensures value { result ≡ digit_value (slice_get text.now place) }
    ensures within { IfSome result (λ precedence. place < length text.now) }
    ensures limit { length text.now ≤ 1048576 }
{
    let c = text.characters().get(place)?;
    if !c.is_ascii_digit() {
        return None;
    }
    Some((u32::from(*c) - 48) as u8)
}
