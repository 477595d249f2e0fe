//! Laws about every derivation, beyond its single cases.
//!
//! A law is a function that does nothing when it runs. Its clause is the law, and calling the function gives the clause.

ghost use Rattle.pg_language.specs.Onward.{DerivationsLeadOn, TablesComeFromGrammar};

/// The law that derivations go forward. The place after a derivation isn't before its start and isn't past the text's end. The table after it is the table at
/// its start with operators added, which can be declared and were admitted one after another. None are added if nothing is consumed.
pub fn derivations_lead_on()
    ensures { DerivationsLeadOn }
{}

/// The law that a table derived from a table of the grammar is a table of the grammar.
pub fn tables_come_from_grammar()
    ensures { TablesComeFromGrammar }
{}
