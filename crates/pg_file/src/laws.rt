//! Laws about every file and every grammar, beyond what a single call says.
//!
//! A law is a function that does nothing when it runs. Its clause is the law, and calling the function gives the clause.

ghost use Rattle.std.specs.Prelude.{◌≡◌, ℕ, List};
ghost use Rattle.std.specs.List.{AllByRecursion};
ghost use Rattle.pg_pred.specs.Offer.{Offer};
ghost use Rattle.pg_grammar_value.specs.Grammar.{Grammar};
ghost use Rattle.pg_file_print.specs.Printed.{printed, PrintKeepsLimits};
ghost use Rattle.pg_file_items.specs.declared.span.Span.{Span};
ghost use Rattle.pg_file_making.specs.Spells.{Spells, SpellsWithinLimits};
ghost use Rattle.pg_file.specs.Syntax.{AreSpansOf, IsSpanOfForm};

/// The law that a file spells at most one grammar.
pub fn files_spell_one_grammar()
    ensures { (offer : Offer) (bytes : List ℕ) (one other : Grammar) → Spells offer bytes one → Spells offer bytes other → one ≡ other }
{}

/// The law that printing the grammar of a file gives a file that spells the same grammar.
pub fn prints_spell_the_grammar()
    ensures { (offer : Offer) (bytes : List ℕ) (g : Grammar) → Spells offer bytes g → Spells offer (printed g) g }
{}

/// The law that the printed file spells that grammar within the limits, if the printed text keeps them. Then `read`
/// returns exactly the grammar that was printed, unless memory runs out.
pub fn prints_are_read_again()
    ensures { (offer : Offer) (bytes : List ℕ) (g : Grammar) → Spells offer bytes g → PrintKeepsLimits g → SpellsWithinLimits offer (printed g) g }
{}

/// The law that each span that `read_placed` returns has the characters of a form, from its word to its closing parenthesis, or of a name.
pub fn spans_are_those_of_forms()
    ensures { (characters : List ℕ) (spans : List Span) → AreSpansOf characters spans → AllByRecursion (IsSpanOfForm characters) spans }
{}
