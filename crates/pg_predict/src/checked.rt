//! A checked grammar: nothing is wrong with it, and it has its sets and its step cost.
//!
//! The type guarantees that, and only [`crate::check`] makes its values. Runs and explanations of a checked grammar rely
//! on it.
ghost use Rattle.std.specs.Prelude.{◌≡◌};

use pg_grammar_value::Grammar;
use pg_sets::Sets;
use std::marker::Model;

/// A predictive grammar with its sets and its step cost, seen as the three.
pub struct Checked {
    grammar: Grammar,
    sets: Sets,
    cost: u64,
}

// Written out, so that the crates above needn't prove again how each part is dropped.
impl Drop for Checked {
    fn drop(self) {
        let Checked {
            grammar,
            sets,
            cost: _,
        } = self;
        drop(grammar);
        drop(sets);
    }
}

impl Model for Checked {
    ghost use Rattle.pg_predict.specs.Checked.{GrammarWithSets, IsChecked};

    ghost Value = { GrammarWithSets };

    ghost view = { λ checked. record { grammar = checked.grammar; sets = checked.sets; cost = checked.cost } };

    ghost invariant = { λ checked. IsChecked (record { grammar = checked.grammar; sets = checked.sets; cost = checked.cost }) };
}

impl Checked {
    ghost use Rattle.pg_predict.specs.Checked.{IsChecked};

    /// The grammar with its sets and its step cost. Nothing may be wrong with it.
    pub(crate) fn new(grammar: Grammar, sets: Sets, cost: u64) -> Checked
        requires { IsChecked (record { grammar = grammar; sets = sets; cost = cost }) }
        ensures { result ≡ record { grammar = grammar; sets = sets; cost = cost } }
    {
        Checked {
            grammar,
            sets,
            cost,
        }
    }

    /// The grammar. It allocates no memory.
    pub fn grammar(&self) -> &Grammar
        ensures grammar { result.now ≡ self.now.grammar }
        ensures checked { IsChecked self.now }
    {
        &self.grammar
    }

    /// Its sets. It allocates no memory.
    pub fn sets(&self) -> &Sets
        ensures sets { result.now ≡ self.now.sets }
        ensures checked { IsChecked self.now }
    {
        &self.sets
    }

    /// Its step cost K(G), at most 4,294,967,296: a parse takes no more than K(G) steps for each character of the text, and
    /// K(G) for its end (ours). It allocates no memory.
    pub fn cost(&self) -> u64
        ensures cost { result ≡ self.now.cost }
        ensures checked { IsChecked self.now }
    {
        self.cost
    }
}
