//! What was found by running texts.

ghost use Rattle.std.specs.Prelude.{◌≡◌, ℕ, IfSome, OnOk};
ghost use Rattle.pg_grammar_value.specs.Grammar.{Grammar};
ghost use Rattle.pg_table.specs.Tables.{Table as Operators};
ghost use Rattle.pg_language.specs.Answers.{given};
ghost use Rattle.pg_language.specs.declared.reading.Reading.TheVariants.{Library};
ghost use Rattle.pg_explain_witness.specs.Shown.{IsShownBy};
ghost use Rattle.pg_explain_witness.specs.Witnesses.{IsWitnessIn};

use crate::judging::{Shown, rounds_beside};
use pg_grammar_form::NodeId;
use pg_text::Text;
use std::alloc::{AllocError, Global};

/// A text that shows a finding.
#[derive(Drop)]
pub struct Witness {
    /// The text.
    pub text: Text,
    /// The node of the finding.
    pub node: NodeId,
    /// Where the node loses the derivation, or where the run gets stuck in it: a place in the text, in characters from 0.
    pub place: usize,
    /// What the text shows.
    pub shown: Shown,
}

/// The best witness so far, and the texts that were run.
#[derive(Drop)]
pub(crate) struct Found {
    /// The node of the finding.
    pub(crate) node: NodeId,
    pub(crate) best: Option<Witness>,
    seen: Vec<Vec<char>>,
}

impl Found {
    /// Nothing has been run yet for the finding at the node.
    pub(crate) fn nothing(alloc: Global, node: NodeId) -> Found
        ensures { (g : Grammar) (t : Operators) → IsWitnessIn g t node result }
    {
        Found {
            node,
            best: None,
            seen: Vec::new(alloc),
        }
    }

    /// The best witness, if there is one.
    pub(crate) fn into_best(self) -> Option<Witness>
        ensures { result ≡ self.best }
    {
        let Found { best, .. } = self;
        best
    }

    /// For how many rounds to look for a better witness.
    pub(crate) fn rounds(&self) -> u64 {
        match &self.best {
            Some(witness) => rounds_beside(&witness.shown),
            None => u64::MAX,
        }
    }

    /// Whether the text was run.
    pub(crate) fn has_seen(&self, text: &[char]) -> bool {
        for other in &self.seen {
            if other.as_slice() == text {
                return true;
            }
        }
        false
    }

    /// Records that the text was run, and what it shows at the place, if anything.
    pub(crate) fn note(
        &mut self,
        alloc: Global,
        characters: &[char],
        text: Text,
        place: usize,
        shown: Option<Shown>,
    ) -> Result<(), AllocError>
        ensures { OnOk result ((g : Grammar) (t : Operators) (n : ℕ) → IsWitnessIn g t n self.old → IfSome shown (IsShownBy (given Library g text) t self.old.node place) → IsWitnessIn g t n self.new) }
    {
        self.seen.push(Vec::from_slice(alloc, characters)?)?;
        if let Some(shown) = shown {
            self.keep(text, place, shown);
        }
        Ok(())
    }

    /// Keeps the text, unless the best one shows as much.
    fn keep(&mut self, text: Text, place: usize, shown: Shown)
        ensures { (g : Grammar) (t : Operators) (n : ℕ) → IsWitnessIn g t n self.old → IsShownBy (given Library g text) t self.old.node place shown → IsWitnessIn g t n self.new }
    {
        if rounds_beside(&shown) < self.rounds() {
            self.best = Some(Witness {
                text,
                node: self.node,
                place,
                shown,
            });
        }
    }
}
