//! Laws about the rows and the fitting trees of every table.
//!
//! A law is a function that does nothing when it runs. Its clause is the law, and calling the function gives the clause.

ghost use Rattle.pg_expand.specs.Laws.{RowsDeriveFittingTrees, OneTreePerReading, OneTreePerOperators};
ghost use Rattle.pg_expand.specs.Lookups.{RowsAndLookupsAgree};

/// The law that the rows of a table, read as a grammar, derive exactly the trees that fit the table, each with its reading.
pub fn rows_derive_fitting_trees()
    ensures { RowsDeriveFittingTrees }
{}

/// The law that two trees that fit a table of a grammar are equal if their readings are.
pub fn one_tree_per_reading()
    ensures { OneTreePerReading }
{}

/// The law that such trees are equal even if only their operators are read in the same order, as a trail keeps them: the operators' sides determine where the
/// terms stand.
pub fn one_tree_per_operators()
    ensures { OneTreePerOperators }
{}

/// The law that rows and look-ups agree. For each row and role, the operators found by a symbol are those of the row's list with that symbol, in its order.
pub fn rows_and_lookups_agree()
    ensures { RowsAndLookupsAgree }
{}
