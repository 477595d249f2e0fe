//! Reading a grammar file: from its bytes to its grammar, or to its first fault with its position.
//!
//! The order of faults is this: bytes that aren't UTF-8; then, from the left, bad tokens, unexpected ones, bad literals and passed limits, at one place the
//! one with the lowest number; then, in file order, faults of names and of initial operators. That a grammar is read exactly if the file spells one is
//! proved, and so are the positions of the first two kinds of faults when they are reported. The order of the others and their positions are tested.

ghost use Rattle.std.specs.Prelude.{◌≡◌, ◌≤◌, ◌↔◌, length, IfOk, IfErr, OnOk, IsNone};
ghost use Rattle.std.specs.Str.{chars, IsUtf8};
ghost use Rattle.pg_pred.specs.Offer.{offer_of};
ghost use Rattle.pg_grammar_value.specs.Fits.{Fits};
ghost use Rattle.pg_grammar_value.specs.Grammar.{Grammar};
ghost use Rattle.pg_file_making.specs.Spells.{SpellsWithinLimits, SpelledWithinDepth};
ghost use Rattle.pg_table.specs.Tables.{initial, whole, ComesFrom};
ghost use Rattle.pg_file_making.specs.Spans.{items_spans};
ghost use Rattle.pg_file.specs.Syntax.{AreSpansOf, IsSyntaxOf, IsReadFrom};
ghost use Rattle.pg_file.specs.Answers.{IsAnswered, IsFault};
ghost use Rattle.pg_file.specs.Refusals.{IsBadAt, IsErrorAt, IsNotUtf8After, IsRefusalOf, shown_error, shown_position};

use crate::error::{ReadError, grammar_error, kind_of};
use crate::file_fault::{FaultKind, FileError, FileFault};
use crate::syntax::{Syntax, syntax_of};
use pg_file_making::{PlacedGrammar, grammar_of};
use pg_file_parser::{SyntaxError, read_items};
use pg_file_tokens::lex_up_to;
use pg_grammar_value::Grammar;
use pg_pred::Registry;
use pg_text::{characters_of, position_in};
use std::alloc::Global;

/// The most bytes of a grammar file.
const FILE_LIMIT: usize = 262_144;

/// The last place that has a position of its own; a fault after it is reported there.
const LAST_PLACE: usize = (1 << 28) - 1;

/// The grammar that the bytes of a file spell, which fits the registry (ours).
///
/// F1 to F9 with its position if they spell none, or pass the limit on length, 262,144 bytes, or on nesting, 64
/// parentheses.
pub fn read(alloc: Global, bytes: &[u8], registry: &Registry) -> Result<Grammar, FileError>
    ensures ok { IfOk result (SpellsWithinLimits (offer_of registry.now) bytes.now) }
    ensures fits { IfOk result (Fits (offer_of registry.now)) }
    ensures only { (g : Grammar) → SpellsWithinLimits (offer_of registry.now) bytes.now g → IsAnswered g result }
    ensures err { IfErr result (IsRefusalOf bytes.now) }
{
    let PlacedGrammar { grammar, .. } = read_placed(alloc, bytes, registry)?;
    Ok(grammar)
}

/// As `read`, together with the span of the written form for each node (ours).
///
/// If a form stands for several nodes, each gets its span, except for the nodes of its parts. For example, `many1(p)` stands for a `seq`, a `many` in it and
/// the nodes of `p` twice; the `seq` and the `many` have the span of the whole.
pub fn read_placed(
    alloc: Global,
    bytes: &[u8],
    registry: &Registry,
) -> Result<PlacedGrammar, FileError>
    ensures ok { IfOk result (λ read. SpellsWithinLimits (offer_of registry.now) bytes.now read.grammar) }
    ensures fits { IfOk result (λ read. Fits (offer_of registry.now) read.grammar) }
    ensures count { IfOk result (λ read. length read.spans.items ≡ length read.grammar.nodes) }
    ensures spans { IfOk result (λ read. AreSpansOf (chars bytes.now) read.spans.items) }
    ensures only { (g : Grammar) → SpellsWithinLimits (offer_of registry.now) bytes.now g → IfOk result (λ read. read.grammar ≡ g) }
    ensures refused { (g : Grammar) → SpellsWithinLimits (offer_of registry.now) bytes.now g → IfErr result (λ e. e ≡ FileError.Memory) }
    ensures err { IfErr result (IsRefusalOf bytes.now) }
{
    match read_file(alloc, bytes, registry) {
        Ok(read) => {
            let ReadFile { placed, .. } = read;
            Ok(placed)
        }
        Err(error) => Err(error),
    }
}

/// A grammar file that was read: its characters, its tokens and items, and the grammar.
#[derive(Drop)]
pub struct ReadFile {
    pub characters: Vec<char>,
    pub syntax: Syntax,
    pub placed: PlacedGrammar,
}

/// As `read_placed`, together with all that is made on the way, so that it need not be made again: the characters of the file, its tokens and items, and the
/// initial operator table (ours).
pub fn read_file(alloc: Global, bytes: &[u8], registry: &Registry) -> Result<ReadFile, FileError>
    // The bytes spell the grammar, which fits the registry.
    ensures ok { IfOk result (λ read. SpellsWithinLimits (offer_of registry.now) bytes.now read.placed.grammar) }
    ensures fits { IfOk result (λ read. Fits (offer_of registry.now) read.placed.grammar) }

    // The results beside it.
    ensures characters { IfOk result (λ read. read.characters.items ≡ chars bytes.now) }
    ensures syntax { IfOk result (λ read. IsSyntaxOf (chars bytes.now) read.syntax.lexemes.items read.syntax.items.items) }
    ensures count { IfOk result (λ read. length read.placed.spans.items ≡ length read.placed.grammar.nodes) }
    ensures spans { IfOk result (λ read. read.placed.spans.items ≡ items_spans read.syntax.items.items) }
    ensures initial { IfOk result (λ read. initial read.placed.grammar ≡ whole read.placed.table) }
    ensures comes { IfOk result (λ read. ComesFrom read.placed.grammar read.placed.table) }

    // If they spell a grammar, it is this one, unless memory runs out; otherwise there is a fault with its position.
    ensures only { (g : Grammar) → SpellsWithinLimits (offer_of registry.now) bytes.now g → IfOk result (λ read. read.placed.grammar ≡ g) }
    ensures refused { (g : Grammar) → SpellsWithinLimits (offer_of registry.now) bytes.now g → IfErr result (λ e. e ≡ FileError.Memory) }
    ensures err { IfErr result (IsRefusalOf bytes.now) }
{
    let text = match std::str::from_utf8(bytes) {
        Ok(text) => text,
        Err(error) => return Err(not_utf8(alloc, &bytes[..error.valid_up_to()])),
    };
    let characters = characters_of(alloc, text)?;
    match text_read(alloc, text, characters.as_slice(), registry) {
        Ok(read) => {
            let (syntax, placed) = read;
            Ok(ReadFile {
                characters,
                syntax,
                placed,
            })
        }
        Err(error) => {
            let fault = reported(error, characters.as_slice());
            drop(characters);
            Err(fault)
        }
    }
}

/// The tokens, items and grammar of a text with these characters, if it isn't too long.
fn text_read(
    alloc: Global,
    text: &str,
    characters: &[char],
    registry: &Registry,
) -> Result<(Syntax, PlacedGrammar), ReadError>
    ensures ok { IfOk result (λ read. IsReadFrom (offer_of registry.now) characters.now read.0 read.1) }
    ensures short { OnOk result (length text.now ≤ FILE_LIMIT) }
    ensures refused { IfErr result (λ e. IsFault e → length text.now ≤ FILE_LIMIT → (g : Grammar) → SpelledWithinDepth (offer_of registry.now) characters.now g → ⊥) }
    ensures err { IfErr result (IsErrorAt (IsBadAt characters.now)) }
{
    match limit_place(text) {
        None => grammar_in(alloc, characters, registry),
        Some(limit) => Err(fault_before(alloc, characters, limit)),
    }
}

/// The grammar that the characters of a file spell, with their tokens and items.
fn grammar_in(
    alloc: Global,
    characters: &[char],
    registry: &Registry,
) -> Result<(Syntax, PlacedGrammar), ReadError>
    ensures ok { IfOk result (λ read. IsReadFrom (offer_of registry.now) characters.now read.0 read.1) }
    ensures refused { IfErr result (λ e. IsFault e → (g : Grammar) → SpelledWithinDepth (offer_of registry.now) characters.now g → ⊥) }
    ensures err { IfErr result (IsErrorAt (IsBadAt characters.now)) }
{
    let syntax = syntax_of(alloc, characters)?;
    match grammar_of(alloc, registry, syntax.items.as_slice()) {
        Ok(placed) => Ok((syntax, placed)),
        Err(error) => {
            drop(syntax);
            Err(grammar_error(error))
        }
    }
}

/// The error for a file that is too long, where the character at this place passes the limit: a fault up to there, if
/// there is one, and otherwise the limit.
fn fault_before(alloc: Global, characters: &[char], limit: usize) -> ReadError
    ensures { IsErrorAt (IsBadAt characters.now) result }
{
    let Ok(lexemes) = lex_up_to(alloc, characters, limit) else {
        return ReadError::Memory;
    };
    match read_items(alloc, lexemes.as_slice()) {
        Err(SyntaxError::Memory) => ReadError::Memory,
        Err(SyntaxError::Fault(fault, Some(place))) if place <= limit => {
            ReadError::Fault(kind_of(fault, Some(place), lexemes.as_slice()), Some(place))
        }
        Ok(_) | Err(SyntaxError::Fault(_, _)) => {
            ReadError::Fault(FaultKind::LimitPassed, Some(limit))
        }
    }
}

/// The place of the first character that passes the limit, if the file is too long.
fn limit_place(text: &str) -> Option<usize>
    ensures { IsNone result ↔ (length text.now ≤ FILE_LIMIT) }
{
    if text.len() <= FILE_LIMIT {
        return None;
    }
    let ends_within = |(start, c): &(usize, char)| start.saturating_add(c.len_utf8()) <= FILE_LIMIT;
    Some(text.char_indices().take_while(ends_within).count())
}

/// The fault of a file that is UTF-8 only in these first bytes.
fn not_utf8(alloc: Global, front: &[u8]) -> FileError
    requires { IsUtf8 front.now }
    ensures { IsNotUtf8After (chars front.now) result }
{
    let Ok(text) = std::str::from_utf8(front) else {
        unreachable!()
    };
    match characters_of(alloc, text) {
        Ok(characters) => fault_at(FaultKind::NotUtf8, characters.as_slice(), characters.len()),
        Err(_) => FileError::Memory,
    }
}

/// The error for a file with these characters, with the position of its fault.
fn reported(error: ReadError, characters: &[char]) -> FileError
    ensures { result ≡ shown_error characters.now error }
{
    match error {
        ReadError::Memory => FileError::Memory,
        ReadError::Fault(kind, place) => {
            fault_at(kind, characters, place.unwrap_or(characters.len()))
        }
    }
}

fn fault_at(kind: FaultKind, characters: &[char], place: usize) -> FileError
    ensures { result ≡ FileError.Fault (record { kind = kind; position = shown_position characters.now place }) }
{
    let place = place.min(characters.len()).min(LAST_PLACE);
    let position = position_in(characters, place);
    FileError::Fault(FileFault { kind, position })
}
