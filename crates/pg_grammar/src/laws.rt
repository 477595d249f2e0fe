//! Laws about every grammar, beyond what a single call says.
//!
//! A law is a function that does nothing when it runs. Its clause is the law, and calling the function gives the clause.

ghost use Rattle.std.specs.Prelude.{◌≡◌};
ghost use Rattle.pg_grammar_value.specs.Grammar.{Grammar};
ghost use Rattle.pg_grammar.specs.Made.{Made, Says};

/// The law that the parts a maker received determine the grammar: two grammars of the same parts have equal class
/// items, nodes, rules and start rules.
pub fn grammars_are_unique()
    ensures { (made : Made) (one other : Grammar) → Says made one → Says made other → one ≡ other }
{}
