//! The list of a file's names, in their order.

ghost use Rattle.std.specs.Prelude.{◌≡◌, ◌++◌, false, IfOk, OnOk};
ghost use Rattle.std.specs.Option.{option_to_list};
ghost use Rattle.std.specs.List.{list_any};
ghost use Rattle.pg_file_tokens.specs.Lexing.{lex_of, placed_of};
ghost use Rattle.pg_file_tokens.specs.Tokens.{is_bad};
ghost use Rattle.pg_file_tokens.specs.View.{placed_tokens_of, token_of};
ghost use Rattle.pg_server_names.specs.Surroundings.{at_first};
ghost use Rattle.pg_server_names.specs.Senses.{named, names_in};

use crate::reading::tokens;
use crate::sense::Occurrence;
use crate::standing::{Next, next_of};
use crate::surroundings::Surroundings;
use pg_file_items::Span;
use pg_file_tokens::{Lexeme, Token};
use std::alloc::{AllocError, Global};

/// The names among the tokens of a file, each with what it is (ours). Fails where memory runs out.
#[tactic(auto, using(crate::proofs::NameLemmas::step, crate::proofs::NameLemmas::at_end))]
pub fn names(alloc: Global, lexemes: &[Lexeme]) -> Result<Vec<Occurrence>, AllocError>
    ensures { IfOk result (λ found. found.items ≡ names_in at_first (placed_tokens_of lexemes.now)) }
{
    let mut found = Vec::new(alloc);
    let mut surroundings = Surroundings::new(alloc);
    let mut rest = lexemes;
    while let Some((first, behind)) = rest.split_first() {
        let next = next_of(behind);
        push(&mut found, named(first, &surroundings, next))?;
        surroundings.pass(&first.token, next)?;
        rest = behind;
    }
    Ok(found)
}

/// A token, if it is a name.
fn named(lexeme: &Lexeme, surroundings: &Surroundings, next: Next) -> Option<Occurrence>
    ensures { result ≡ named lexeme.now.place surroundings.now (token_of lexeme.now.token) next }
{
    match &lexeme.token {
        Token::Name(name) => Some(Occurrence {
            span: Span {
                first: lexeme.place,
                after: lexeme.place.saturating_add(name.len()),
            },
            sense: surroundings.sense(name.as_slice(), next),
        }),
        Token::Number(_) | Token::Literal(_) | Token::Mark(_) | Token::WrongLiteral | Token::Bad =>
            None,
    }
}

/// Appends a name, if there is one.
fn push(found: &mut Vec<Occurrence>, name: Option<Occurrence>) -> Result<(), AllocError>
    ensures { OnOk result (found.new.items ≡ found.old.items ++ option_to_list name) }
{
    if let Some(name) = name {
        found.push(name)?;
    }
    Ok(())
}

/// The names of a file. Behind a character that begins no token it goes on with the next one, or with the next line if it is a quote.
pub fn names_of(alloc: Global, text: &[char]) -> Result<Vec<Occurrence>, AllocError>
    ensures { list_any is_bad (lex_of text.now) ≡ false → IfOk result (λ found. found.items ≡ names_in at_first (placed_of text.now)) }
{
    let lexemes = tokens(alloc, text)?;
    let found = names(alloc, lexemes.as_slice())?;
    Ok(found)
}
