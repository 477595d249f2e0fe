//! Class expressions: atoms with `|` between them. An expression ends at an atom without a `|` after it.
//!
//! Only the token after a literal shows whether it is a set or an end of a range, so it is checked then. The depth to
//! which parentheses may still nest is passed down, so the recursion ends at the limit. Consecutive `not`s are read in
//! a loop, since only the file's length bounds their number. The places of names are noted from left to right.

#![tactic(auto, using(crate::proofs::ParserLemmas::Rests::ends))]

ghost use Rattle.std.specs.Prelude.{◌≡◌, [], ◌∷◌, length, IfOk};
ghost use Rattle.pg_file_tokens.specs.declared.token.Mark.TheVariants.{Bar};
ghost use Rattle.pg_file_tokens.specs.View.{tokens_of};
ghost use Rattle.pg_file_items.specs.Joined as spec;
ghost use Rattle.pg_file_parser.specs.Rests.{EndsWith};
ghost use Rattle.pg_file_parser.specs.Given.{Gives, classes_of};
ghost use Rattle.pg_file_parser.specs.Reading.{range_at, literal_atom_at, named_at, plain_at, atom_at, more_at, some_at, expressed, class_with, group_at, class_at};
ghost use Rattle.pg_file_parser.specs.Reading as reading;

use crate::error::{SyntaxError, SyntaxFault};
use crate::front::{after_mark, after_word, expect_mark, literal, unexpected};
use crate::text::{free_name, literal_text};
use pg_file_items::{PlacedClass, WrittenClass, WrittenPart};
use pg_file_tokens::{Lexeme, Mark, Token};
use std::alloc::{AllocError, Global};

/// The one character of an end of a range. F7 if it isn't one.
fn range_end(text: &[char], place: usize) -> Result<char, SyntaxError>
    ensures { Gives (λ c. c) result (reading.range_end text.now) }
{
    match text {
        [c] => Ok(*c),
        _ => Err(SyntaxError::Fault(SyntaxFault::BadLiteral, Some(place))),
    }
}

/// The range from a literal to the one at the front. F7 at the second if the range descends.
fn range<'a>(
    text: &[char],
    place: usize,
    tokens: &'a [Lexeme],
) -> Result<(WrittenPart, &'a [Lexeme]), SyntaxError>
    ensures read { Gives (λ x. (x.0 ∷ [], tokens_of x.1.now)) result (range_at text.now (tokens_of tokens.now)) }
    ensures rest { IfOk result (λ x. EndsWith tokens.now x.1.now) }
{
    let low = range_end(text, place)?;
    let (text, place, rest) = literal(tokens)?;
    let high = range_end(text, place)?;
    if high < low {
        return Err(SyntaxError::Fault(SyntaxFault::BadLiteral, Some(place)));
    }
    Ok((WrittenPart::Range(low, high), rest))
}

/// A set or a range: a literal, or two with `..` between them.
fn literal_part(alloc: Global, tokens: &[Lexeme]) -> Result<(WrittenPart, &[Lexeme]), SyntaxError>
    ensures read { Gives (λ x. (x.0 ∷ [], tokens_of x.1.now)) result (literal_atom_at (tokens_of tokens.now)) }
    ensures rest { IfOk result (λ x. EndsWith tokens.now x.1.now) }
{
    let (text, place, rest) = literal(tokens)?;
    match after_mark(rest, Mark::Dots) {
        Some(after) => range(text, place, after),
        None => {
            let text = literal_text(alloc, text, place)?;
            Ok((WrittenPart::Literal(text), rest))
        }
    }
}

/// The list of this one part.
fn single(alloc: Global, part: WrittenPart) -> Result<Vec<WrittenPart>, AllocError>
    ensures { IfOk result (λ parts. parts.items ≡ part ∷ []) }
{
    Ok(vec![in alloc; part]?)
}

/// A set or a range, as a list of one part.
fn literal_atom(
    alloc: Global,
    tokens: &[Lexeme],
) -> Result<(Vec<WrittenPart>, &[Lexeme]), SyntaxError>
    ensures read { Gives (λ x. (x.0.items, tokens_of x.1.now)) result (literal_atom_at (tokens_of tokens.now)) }
    ensures rest { IfOk result (λ x. EndsWith tokens.now x.1.now) }
{
    let (part, rest) = literal_part(alloc, tokens)?;
    Ok((single(alloc, part)?, rest))
}

/// The class or predicate with this name, which stands at a place.
fn named<'a>(
    alloc: Global,
    text: &[char],
    place: usize,
    rest: &'a [Lexeme],
    names: &mut Vec<usize>,
) -> Result<(Vec<WrittenPart>, &'a [Lexeme]), SyntaxError>
    ensures read { Gives (λ x. (x.0.items, tokens_of x.1.now)) result (named_at text.now (tokens_of rest.now)) }
    ensures rest { IfOk result (λ x. EndsWith rest.now x.1.now) }
{
    let name = free_name(alloc, text, place)?;
    names.push(place)?;
    Ok((single(alloc, WrittenPart::Named(name))?, rest))
}

/// An atom without `not`: a name, a class in parentheses, a set or a range.
#[cycle(class)]
#[tactic(auto, using(crate::proofs::ParserLemmas::Rests::ends), unfolding(crate::specs::Reading::plain_at))]
fn plain_atom<'a>(
    alloc: Global,
    depth: usize,
    tokens: &'a [Lexeme],
    names: &mut Vec<usize>,
) -> Result<(Vec<WrittenPart>, &'a [Lexeme]), SyntaxError>
    ensures read { Gives (λ x. (x.0.items, tokens_of x.1.now)) result (plain_at (group_at depth) (tokens_of tokens.now)) }
    ensures rest { IfOk result (λ x. EndsWith tokens.now x.1.now) }
{
    let [first, rest @ ..] = tokens else {
        return Err(unexpected(tokens));
    };
    match &first.token {
        Token::Name(text) => named(alloc, text.as_slice(), first.place, rest, names),
        Token::Mark(Mark::Open) => group(alloc, depth, first.place, rest, names),
        Token::Literal(_) | Token::WrongLiteral => literal_atom(alloc, tokens),
        Token::Number(_) | Token::Mark(_) | Token::Bad => Err(unexpected(tokens)),
    }
}

/// The class after an opening parenthesis at a place, and the closing parenthesis. F8 at the place if it nests too
/// deep.
#[cycle(class)]
#[tactic(auto, using(crate::proofs::ParserLemmas::Rests::ends), unfolding(crate::specs::Reading::group_at))]
fn group<'a>(
    alloc: Global,
    depth: usize,
    place: usize,
    tokens: &'a [Lexeme],
    names: &mut Vec<usize>,
) -> Result<(Vec<WrittenPart>, &'a [Lexeme]), SyntaxError>
    ensures read { Gives (λ x. (x.0.items, tokens_of x.1.now)) result (group_at depth (tokens_of tokens.now)) }
    ensures rest { IfOk result (λ x. EndsWith tokens.now x.1.now) }
{
    if depth == 0 {
        return Err(SyntaxError::Fault(SyntaxFault::LimitPassed, Some(place)));
    }
    let (parts, rest) = class(alloc, depth - 1, tokens, names)?;
    Ok((parts, expect_mark(rest, Mark::Close)?))
}

/// An atom, after any number of `not`.
#[cycle(class)]
fn atom<'a>(
    alloc: Global,
    depth: usize,
    tokens: &'a [Lexeme],
    names: &mut Vec<usize>,
) -> Result<(Vec<WrittenPart>, &'a [Lexeme]), SyntaxError>
    ensures read { Gives (λ x. (x.0.items, tokens_of x.1.now)) result (atom_at (group_at depth) (tokens_of tokens.now)) }
    ensures rest { IfOk result (λ x. EndsWith tokens.now x.1.now) }
{
    let mut parts = Vec::new(alloc);
    let mut rest = tokens;
    while let Some(after) = after_word(rest, "not") {
        parts.push(WrittenPart::Complement)?;
        rest = after;
    }
    let (mut atom, rest) = plain_atom(alloc, depth, rest, names)?;
    parts.append(&mut atom)?;
    Ok((parts, rest))
}

/// The further atoms, a `|` before each; at most this many.
#[cycle(class)]
fn more_atoms<'a>(
    alloc: Global,
    depth: usize,
    most: usize,
    tokens: &'a [Lexeme],
    names: &mut Vec<usize>,
) -> Result<(Vec<Vec<WrittenPart>>, &'a [Lexeme]), SyntaxError>
    ensures read { Gives (λ x. (classes_of x.0.items, tokens_of x.1.now)) result (more_at Bar (atom_at (group_at depth)) most (tokens_of tokens.now)) }
    ensures rest { IfOk result (λ x. EndsWith tokens.now x.1.now) }
{
    let mut atoms = Vec::new(alloc);
    let mut rest = tokens;
    for _ in 0..most {
        let Some(after) = after_mark(rest, Mark::Bar) else {
            return Ok((atoms, rest));
        };
        let (next, after) = atom(alloc, depth, after, names)?;
        atoms.push(next)?;
        rest = after;
    }
    Ok((atoms, rest))
}

/// One atom or more.
#[cycle(class)]
#[tactic(auto, using(crate::proofs::ParserLemmas::Rests::ends, crate::proofs::ParserLemmas::Loop::tokens_len), unfolding(crate::specs::Reading::some_at))]
fn atoms<'a>(
    alloc: Global,
    depth: usize,
    tokens: &'a [Lexeme],
    names: &mut Vec<usize>,
) -> Result<(Vec<Vec<WrittenPart>>, &'a [Lexeme]), SyntaxError>
    ensures read { Gives (λ x. (classes_of x.0.items, tokens_of x.1.now)) result (some_at Bar (atom_at (group_at depth)) (length tokens.now) (tokens_of tokens.now)) }
    ensures rest { IfOk result (λ x. EndsWith tokens.now x.1.now) }
{
    let (first, rest) = atom(alloc, depth, tokens, names)?;
    let (mut atoms, rest) = more_atoms(alloc, depth, tokens.len(), rest, names)?;
    atoms.insert(0, first)?;
    Ok((atoms, rest))
}

/// Joins lists, one after another.
fn joined(alloc: Global, lists: Vec<Vec<WrittenPart>>) -> Result<Vec<WrittenPart>, AllocError>
    ensures { IfOk result (λ parts. parts.items ≡ spec.joined (classes_of lists.items)) }
{
    let mut parts = Vec::new(alloc);
    for mut list in lists {
        parts.append(&mut list)?;
    }
    Ok(parts)
}

/// The expression of these atoms: a single atom as it is, several as a union.
fn expression(alloc: Global, atoms: Vec<Vec<WrittenPart>>) -> Result<Vec<WrittenPart>, AllocError>
    ensures { IfOk result (λ parts. parts.items ≡ expressed (classes_of atoms.items)) }
{
    let count = atoms.len();
    let mut parts = joined(alloc, atoms)?;
    if count > 1 {
        parts.insert(0, WrittenPart::Union(count))?;
    }
    Ok(parts)
}

/// A class expression in which parentheses may nest this deep.
#[cycle(class)]
#[tactic(auto, using(crate::proofs::ParserLemmas::Rests::ends, crate::proofs::ParserLemmas::Loop::tokens_len), unfolding(crate::specs::Reading::class_with))]
fn class<'a>(
    alloc: Global,
    depth: usize,
    tokens: &'a [Lexeme],
    names: &mut Vec<usize>,
) -> Result<(Vec<WrittenPart>, &'a [Lexeme]), SyntaxError>
    ensures read { Gives (λ x. (x.0.items, tokens_of x.1.now)) result (class_with (group_at depth) (tokens_of tokens.now)) }
    ensures rest { IfOk result (λ x. EndsWith tokens.now x.1.now) }
{
    let (atoms, rest) = atoms(alloc, depth, tokens, names)?;
    Ok((expression(alloc, atoms)?, rest))
}

/// A class expression in which parentheses may nest this deep. The places of its names are added to these.
pub fn written_class<'a>(
    alloc: Global,
    depth: usize,
    tokens: &'a [Lexeme],
    names: &mut Vec<usize>,
) -> Result<(WrittenClass, &'a [Lexeme]), SyntaxError>
    ensures read { Gives (λ x. (x.0, tokens_of x.1.now)) result (class_at depth (tokens_of tokens.now)) }
    ensures rest { IfOk result (λ x. EndsWith tokens.now x.1.now) }
{
    let (parts, rest) = class(alloc, depth, tokens, names)?;
    Ok((WrittenClass::new(parts), rest))
}

/// As `written_class`, together with the places of its names.
pub fn placed_class(
    alloc: Global,
    depth: usize,
    tokens: &[Lexeme],
) -> Result<(PlacedClass, &[Lexeme]), SyntaxError>
    ensures read { Gives (λ x. (x.0.class, tokens_of x.1.now)) result (class_at depth (tokens_of tokens.now)) }
    ensures rest { IfOk result (λ x. EndsWith tokens.now x.1.now) }
{
    let mut names = Vec::new(alloc);
    let (class, rest) = written_class(alloc, depth, tokens, &mut names)?;
    Ok((PlacedClass { class, names }, rest))
}
