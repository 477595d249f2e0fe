//! What a derivation does at a node: its trail is replayed, and each visit of the node is noted.

use crate::notes::{Next, Notes};
use crate::site::{Site, has_alternatives, is_expression, site_of};
use pg_grammar_form::NodeId;
use pg_grammar_value::{Grammar, Trail, TrailItem};
use pg_table::Table;
use pg_text::Text;
use pg_trail_replay::{Replayer, RoundsTask, ShortTask, Task};
use std::alloc::{AllocError, Global};

/// What the derivation with this trail does at the node. If a round of the node consumes nothing, the notes are empty: the replay can't follow the rounds
/// after it. Fails where memory runs out.
pub(crate) fn derived_notes(
    alloc: Global,
    grammar: &Grammar,
    text: &Text,
    table: &Table,
    trail: &Trail,
    node: NodeId,
) -> Result<Notes, AllocError> {
    let mut replayer = Replayer::begin(alloc, grammar, table, trail)?;
    let mut walk = Walk {
        grammar,
        node,
        site: site_of(grammar, node),
        notes: Notes::new(alloc),
    };
    let gone = walk.go_along(alloc, text, &mut replayer);
    drop(replayer);
    gone?;
    let Walk { notes, .. } = walk;
    Ok(notes)
}

/// A replay, and the notes made of a node.
#[derive(Drop)]
struct Walk<'g> {
    grammar: &'g Grammar,
    node: NodeId,
    site: Site,
    notes: Notes,
}

impl<'g> Walk<'g> {
    /// Replays the whole trail.
    fn go_along(
        &mut self,
        alloc: Global,
        text: &Text,
        replayer: &mut Replayer<'g>,
    ) -> Result<(), AllocError> {
        for _ in 0..u64::MAX {
            if !self.step(alloc, text, replayer)? {
                break;
            }
        }
        Ok(())
    }

    /// Notes and performs the next task. Answers whether the replay goes on.
    fn step(
        &mut self,
        alloc: Global,
        text: &Text,
        replayer: &mut Replayer<'g>,
    ) -> Result<bool, AllocError> {
        let Some(task) = replayer.tasks.pop() else {
            return Ok(false);
        };
        let goes_on = self.see(&task, replayer.place, replayer.rest)?;
        if !goes_on {
            self.notes.forget();
            return Ok(false);
        }
        self.notes.turn();
        let halt = replayer.perform(alloc, self.grammar, text, &task)?;
        Ok(halt.is_none())
    }

    /// Notes what a task does at the place, with these items left. Answers whether the replay can go on.
    fn see(
        &mut self,
        task: &Task<'_>,
        place: usize,
        rest: &[TrailItem],
    ) -> Result<bool, AllocError> {
        match task {
            Task::Short(short) => {
                self.see_short(short, place, rest)?;
                Ok(true)
            }
            Task::Rounds(rounds) => self.see_rounds(rounds, place),
            Task::Close(_) | Task::Leave(_) => Ok(true),
        }
    }

    /// As `see`, for a short task.
    fn see_short(
        &mut self,
        task: &ShortTask<'_>,
        place: usize,
        rest: &[TrailItem],
    ) -> Result<(), AllocError> {
        match task {
            ShortTask::Node(node) => self.enter(*node, place, rest),
            ShortTask::Rounds { part, left } if self.site.repeats(*part) => {
                self.see_round(place, *left)
            }
            ShortTask::Term(_, _) if self.site.is_expression() => self.notes.begin_term(place),
            ShortTask::Symbol(_) => {
                self.end_term(place);
                Ok(())
            }
            ShortTask::Unmark => self.end_expression(place),
            ShortTask::Rounds { .. }
            | ShortTask::Term(_, _)
            | ShortTask::Parts(_)
            | ShortTask::Settle(_)
            | ShortTask::Fold { .. }
            | ShortTask::Application { .. } => Ok(()),
        }
    }

    /// Notes that a node is entered at the place, with these items left.
    fn enter(&mut self, node: NodeId, place: usize, rest: &[TrailItem]) -> Result<(), AllocError> {
        let is_noted = node == self.node;
        match self.site {
            Site::Choice => {
                if is_noted && has_alternatives(self.grammar, node) {
                    self.choose(place, rest)?;
                }
                Ok(())
            }
            Site::Many(_) | Site::Chain(_) => {
                if is_noted {
                    self.notes.begin(true, place)?;
                }
                Ok(())
            }
            Site::Expression(_) => {
                if is_expression(self.grammar, node) {
                    self.notes.begin(is_noted, place)?;
                }
                Ok(())
            }
            Site::Other => Ok(()),
        }
    }

    /// Notes that the choice picks the alternative of the next item.
    fn choose(&mut self, place: usize, rest: &[TrailItem]) -> Result<(), AllocError> {
        if let Some(TrailItem::Alt(number)) = rest.first() {
            self.notes.begin(true, place)?;
            self.notes.go_on(Next::Alternative(*number))?;
            self.notes.end();
        }
        Ok(())
    }

    /// Notes what a task of rounds does. Answers whether the replay can go on: it can't where a round consumes nothing.
    fn see_rounds(&mut self, task: &RoundsTask<'_>, place: usize) -> Result<bool, AllocError> {
        match task {
            RoundsTask::MoreRounds {
                part,
                left,
                place: from,
                ..
            } if self.site.repeats(*part) => {
                self.see_round(place, *left)?;
                Ok(*from != place)
            }
            RoundsTask::Links { chain, left, .. } if self.site.separates(chain.separator) => {
                self.see_round(place, *left)?;
                Ok(true)
            }
            RoundsTask::Linked { chain, from, .. } if self.site.separates(chain.separator) => {
                Ok(from.place != place)
            }
            RoundsTask::MoreRounds { .. }
            | RoundsTask::Links { .. }
            | RoundsTask::Operand { .. }
            | RoundsTask::Linked { .. } => Ok(true),
        }
    }

    /// Notes that `left` rounds are left at the place.
    fn see_round(&mut self, place: usize, left: usize) -> Result<(), AllocError> {
        self.notes.mark();
        if left == 0 {
            self.notes.go_on_from(place, Next::End(place))?;
            self.notes.end();
            Ok(())
        } else {
            self.notes.go_on_from(place, Next::Round)
        }
    }

    /// Notes that the term of an expression ends at the place, if one was begun.
    fn end_term(&mut self, place: usize) {
        if self.site.is_expression() {
            self.notes.end_term(place);
        }
    }

    /// Notes that an expression ends at the place.
    fn end_expression(&mut self, place: usize) -> Result<(), AllocError> {
        if self.site.is_expression() {
            self.notes.end_term(place);
            self.notes.go_on(Next::End(place))?;
            self.notes.end();
        }
        Ok(())
    }
}
