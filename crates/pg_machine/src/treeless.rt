//! Runs of the start rule that make no trees.
//!
//! They run under a `skip`, below which the machine only counts trees. The `skip` takes a turn of its own, the last one.

ghost use Rattle.std.specs.Prelude.{◌≡◌, IfOk};
ghost use Rattle.pg_pred.specs.Offer.{offer_of};
ghost use Rattle.pg_grammar_form.specs.declared.form.Around.TheVariants.{Skip};
ghost use Rattle.pg_grammar_value.specs.Fits.{Fits};
ghost use Rattle.pg_language.specs.Answers.{given};
ghost use Rattle.pg_language.specs.declared.reading.Reading.TheVariants.{Library};
ghost use Rattle.pg_machine.specs.Treeless.{IsTreeless};

use crate::answer::Outcome;
use crate::probing::{ended, start_of};
use pg_grammar_form::Around;
use pg_grammar_value::Grammar;
use pg_language::Reading;
use pg_machine_lists::{Context, Given};
use pg_machine_turns::{Machine, Mode};
use pg_pred::Registry;
use pg_table::Table;
use pg_text::Text;
use std::alloc::{AllocError, Global};

/// Runs the start rule as `probe` does in the library's reading, with the greatest number of steps, but makes no trees: the outcome is the same without them. The
/// registry must fit.
pub(crate) fn probe_treeless<'a>(
    alloc: Global,
    grammar: &'a Grammar,
    text: &'a Text,
    table: &Table,
    registry: &Registry,
    skip: &'a Around,
) -> Result<Outcome, AllocError>
    requires fits { Fits (offer_of registry.now) grammar.now }
    requires skip { skip.now ≡ Skip }
    ensures { IfOk result (IsTreeless (given Library grammar.now text.now) table.now) }
{
    let own = table.copy(alloc)?;
    let mut machine = Machine::discarding(alloc, own, skip)?;
    let begun = Mode::At(start_of(grammar), 0);
    let context = Context {
        alloc,
        registry,
        given: Given {
            reading: Reading::Library,
            grammar,
            text,
        },
    };
    let progress = machine.turns(context, begun, u64::MAX)?;
    let steps = progress.steps.saturating_sub(1);
    let outcome = ended(alloc, text, &mut machine, progress.mode, steps);
    drop(machine);
    outcome
}
