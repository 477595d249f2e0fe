//! The tokens of a grammar file, and the items that they spell.

ghost use Rattle.std.specs.Prelude.{◌≡◌, true, List, IfOk, IfErr};
ghost use Rattle.std.specs.List.{list_any};
ghost use Rattle.pg_pred.specs.Offer.{Offer};
ghost use Rattle.pg_grammar_value.specs.Grammar.{Grammar};
ghost use Rattle.pg_file_making.specs.Spells.{SpelledWithinDepth};
ghost use Rattle.pg_file_tokens.specs.View.{is_bad_at, tokens_of};
ghost use Rattle.pg_file_items.specs.Entries.{Entry, entries_of};
ghost use Rattle.pg_file_parser.specs.Items.{AreItems, OnlyItems};
ghost use Rattle.pg_file_parser.specs.Places.{AreItemsInPlace};
ghost use Rattle.pg_file.specs.Syntax.{IsSyntaxOf};
ghost use Rattle.pg_file.specs.Answers.{IsFault};
ghost use Rattle.pg_file.specs.Refusals.{IsBadAt, IsErrorAt};

use crate::error::{ReadError, syntax_error};
use pg_file_items::Item;
use pg_file_parser::read_items;
use pg_file_tokens::{Lexeme, lex};
use std::alloc::Global;

/// The tokens of a file, and the items that they spell.
pub struct Syntax {
    pub lexemes: Vec<Lexeme>,
    pub items: Vec<Item>,
}

// Written out, so that the crates above needn't prove again how each part is dropped.
impl Drop for Syntax {
    fn drop(self) {
        let Syntax { lexemes, items } = self;
        drop(lexemes);
        drop(items);
    }
}

/// The tokens and the items of a file with these characters.
pub fn syntax_of(alloc: Global, characters: &[char]) -> Result<Syntax, ReadError>
    ensures ok { IfOk result (λ syntax. IsSyntaxOf characters.now syntax.lexemes.items syntax.items.items) }
    ensures refused { IfErr result (λ e. IsFault e → (offer : Offer) (g : Grammar) → SpelledWithinDepth offer characters.now g → ⊥) }
    ensures err { IfErr result (IsErrorAt (IsBadAt characters.now)) }
{
    let lexemes = lex(alloc, characters)?;
    match items_of(alloc, lexemes.as_slice()) {
        Ok(items) => Ok(Syntax { lexemes, items }),
        Err(error) => {
            drop(lexemes);
            Err(error)
        }
    }
}

/// The items that the tokens spell.
fn items_of(alloc: Global, lexemes: &[Lexeme]) -> Result<Vec<Item>, ReadError>
    ensures items { IfOk result (λ items. AreItems (tokens_of lexemes.now) (entries_of items.items)) }
    ensures only { IfOk result (λ items. OnlyItems (tokens_of lexemes.now) (entries_of items.items)) }
    ensures places { IfOk result (λ items. AreItemsInPlace lexemes.now items.items) }
    ensures refused { IfErr result (λ e. IsFault e → (entries : List Entry) → AreItems (tokens_of lexemes.now) entries → ⊥) }
    ensures err { IfErr result (IsErrorAt (λ place. list_any (is_bad_at place) lexemes.now ≡ true)) }
{
    match read_items(alloc, lexemes) {
        Ok(items) => Ok(items),
        Err(error) => Err(syntax_error(error, lexemes)),
    }
}
