//! Printing a grammar so that it can be read back.

ghost use Rattle.std.specs.Prelude.{◌≡◌, ℕ, List, IfOk};
ghost use Rattle.pg_pred.specs.Offer.{Offer};
ghost use Rattle.pg_file_making.specs.Spells.{Spells, SpellsWithinLimits};
ghost use Rattle.pg_file_print.specs.Printed.{printed, PrintKeepsLimits};

use pg_grammar_value::Grammar;
use std::alloc::{AllocError, Global};

/// The grammar as a file in the canonical form (ours): one line for each item; classes, words, operators, table, start and rules; base forms alone.
///
/// If a file spells the grammar, the printed text spells it too. If the printed text keeps the limits on length and nesting, it spells the grammar within the
/// limits, and `read` returns exactly that grammar.
pub fn print(alloc: Global, grammar: &Grammar) -> Result<Vec<u8>, AllocError>
    ensures bytes { IfOk result (λ bytes. bytes.items ≡ printed grammar.now) }
    ensures spells { (offer : Offer) (file : List ℕ) → Spells offer file grammar.now → IfOk result (λ bytes. Spells offer bytes.items grammar.now) }
    ensures again { (offer : Offer) (file : List ℕ) → Spells offer file grammar.now → PrintKeepsLimits grammar.now →
        IfOk result (λ bytes. SpellsWithinLimits offer bytes.items grammar.now) }
{
    pg_file_print::print(alloc, grammar)
}
