//! Forms around one part: what they turn the part's answer into.

ghost use Rattle.std.specs.Prelude.{◌≡◌, ◌∷◌, [], IfOk, OnOk};
ghost use Rattle.pg_language.specs.Derives.{leaf_of, span};
ghost use Rattle.pg_pred.specs.Offer.{offer_of};
ghost use Rattle.pg_machine_turns.specs.Ready.{AroundFits};
ghost use Rattle.pg_machine_lists.specs.RunTrees.{first_trees, with_trees, without_hiding};
ghost use Rattle.pg_machine_turns.specs.Tape.{forest_around, forest_in, forest_left, forest_made, messages_around, reply_around, table_around, tape_to_around};
ghost use Rattle.pg_machine_turns.specs.View.{on_lists, tape_of};

use crate::frame::{AroundFrame, Mode, Reply};
use crate::machine::Machine;
use pg_grammar_form::Around;
use pg_machine_lists::{RunForest, build_after};
use pg_message_tape::MessageTape;
use pg_pred::Registry;
use pg_table::Table;
use pg_text::Text;
use std::alloc::AllocError;

impl<'a> Machine<'a> {
    /// Handles an answer of the part.
    #[inline(always)]
    pub(crate) fn hand_to_around(
        &mut self,
        registry: &Registry,
        text: &Text,
        frame: AroundFrame<'a>,
        reply: Reply,
    ) -> Result<Mode, AllocError>
        requires { AroundFits (offer_of registry.now) frame.around.now }
        ensures { IfOk result (λ mode. tape_of mode self.new ≡
            on_lists (tape_to_around text.now frame.entry.around.now frame.entry.start frame.entry.forest frame.entry.operators reply) self.old) }
    {
        let around = frame.around;
        make(registry, text, frame, reply, &mut self.lists.forest)?;
        say(&mut self.lists.messages, around, reply)?;
        leave(&mut self.table, around, frame.operators, reply);
        Ok(Mode::With(answer(around, reply)))
    }
}

/// Begins a form: if it discards its part's trees, none is made from here on.
#[inline(always)]
pub(crate) fn begin(around: &Around, forest: &mut RunForest) -> Result<(), AllocError>
    ensures { OnOk result (forest.new ≡ forest_in around.now forest.old) }
{
    match around {
        Around::Try => Ok(()),
        Around::Text => forest.hide(),
        Around::Skip => forest.hide(),
        Around::Build(_, _) => Ok(()),
        Around::Label(_) => Ok(()),
        Around::Local => Ok(()),
    }
}

/// The form's answer: a failure in `try` doesn't count as consumed.
#[inline(always)]
pub(crate) fn answer(around: &Around, reply: Reply) -> Reply
    ensures { result ≡ reply_around around.now reply }
{
    match reply {
        Reply::Succeeded {
            consumed,
            end,
            error,
        } => Reply::Succeeded {
            consumed,
            end,
            error,
        },
        Reply::Failed { consumed, error } => Reply::Failed {
            consumed: match around {
                Around::Try => false,
                Around::Text
                | Around::Skip
                | Around::Build(_, _)
                | Around::Label(_)
                | Around::Local => consumed,
            },
            error,
        },
        Reply::EmptyRound => Reply::EmptyRound,
    }
}

/// Changes the messages of the part: where it consumed nothing, a label's name becomes what was expected, except in an ok
/// answer without messages.
#[inline(always)]
fn say<'a>(
    messages: &mut MessageTape<'a>,
    around: &'a Around,
    reply: Reply,
) -> Result<(), AllocError>
    ensures { OnOk result (messages.new ≡ messages_around around.now reply messages.old) }
{
    let name = match around {
        Around::Label(name) => name,
        Around::Try | Around::Text | Around::Skip | Around::Build(_, _) | Around::Local => {
            return Ok(());
        }
    };
    match reply {
        Reply::Succeeded {
            consumed,
            end: _,
            error,
        } => {
            if consumed || error.from == messages.len() {
                return Ok(());
            }
            messages.relabel(error.from, name)
        }
        Reply::Failed { consumed, error } => {
            if consumed {
                return Ok(());
            }
            messages.relabel(error.from, name)
        }
        Reply::EmptyRound => Ok(()),
    }
}

/// Changes the part's trees, for its answer.
#[inline(always)]
fn make(
    registry: &Registry,
    text: &Text,
    frame: AroundFrame<'_>,
    reply: Reply,
    forest: &mut RunForest,
) -> Result<(), AllocError>
    requires { AroundFits (offer_of registry.now) frame.around.now }
    ensures { OnOk result (forest.new ≡ forest_around frame.entry.around.now text.now frame.entry.start frame.entry.forest reply forest.old) }
{
    match reply {
        Reply::Succeeded {
            consumed: _,
            end,
            error: _,
        } => remake(registry, text, frame, end, forest),
        Reply::Failed { .. } => give_up(frame.around, frame.forest, forest),
        Reply::EmptyRound => Ok(()),
    }
}

/// Changes the trees after the first `count` where the part failed.
#[inline(always)]
fn give_up(around: &Around, count: usize, forest: &mut RunForest) -> Result<(), AllocError>
    ensures { OnOk result (forest.new ≡ forest_left around.now count forest.old) }
{
    match around {
        Around::Try => Ok(()),
        Around::Text => {
            show_first(count, forest);
            Ok(())
        }
        Around::Skip => {
            show_first(count, forest);
            Ok(())
        }
        Around::Build(_, _) | Around::Label(_) | Around::Local => Ok(()),
    }
}

/// Drops all but the first trees, and keeps trees again as before the form.
#[inline(always)]
fn show_first(count: usize, forest: &mut RunForest)
    ensures { forest.new ≡ without_hiding (first_trees count forest.old) }
{
    forest.cut(count);
    forest.show();
}

/// Changes the part's trees where it succeeded and ended at this place.
#[inline(never)]
fn remake(
    registry: &Registry,
    text: &Text,
    frame: AroundFrame<'_>,
    end: usize,
    forest: &mut RunForest,
) -> Result<(), AllocError>
    requires { AroundFits (offer_of registry.now) frame.around.now }
    ensures { OnOk result (forest.new ≡ forest_made frame.entry.around.now text.now frame.entry.start end frame.entry.forest forest.old) }
{
    let count = frame.forest;
    match frame.around {
        Around::Try => Ok(()),
        Around::Text => as_text(text, frame.start, end, count, forest),
        Around::Skip => {
            show_first(count, forest);
            Ok(())
        }
        Around::Build(used, symbol) => {
            build_after(registry, used, symbol.as_str(), count, forest)
        }
        Around::Label(_) | Around::Local => Ok(()),
    }
}

/// Changes the table where the form ends: what `local` declared ends with it if the part is ok, and the first `count` operators stay.
#[inline(always)]
fn leave(table: &mut Table, around: &Around, count: usize, reply: Reply)
    ensures { table.new ≡ table_around around.now count reply table.old }
{
    match around {
        Around::Local => match reply {
            Reply::Succeeded { .. } => table.cut(count),
            Reply::Failed { .. } | Reply::EmptyRound => {}
        },
        Around::Try | Around::Text | Around::Skip | Around::Build(_, _) | Around::Label(_) => {}
    }
}

/// Replaces the trees after the first `count` by one leaf with the text between the two places.
fn as_text(
    text: &Text,
    start: usize,
    end: usize,
    count: usize,
    forest: &mut RunForest,
) -> Result<(), AllocError>
    ensures { OnOk result (forest.new ≡ with_trees (leaf_of (span text.now start end) ∷ []) (without_hiding (first_trees count forest.old))) }
{
    show_first(count, forest);
    let characters = text.characters();
    let upto = end.min(characters.len());
    let from = start.min(upto);
    forest.push_leaf(&characters[from..upto])
}
