//! The state of a replay: what was derived so far, and what is left to do.

ghost use Rattle.std.specs.Prelude.{◌≡◌, ◌∷◌, reverse, length, map, set, Some, IfOk, OnOk};
ghost use Rattle.pg_trail_replay.specs.Tasks.{on, told, with_tasks, with_entered, after_item, moved_to, without_newest, with_marks, with_loose, first_mark, with_known, is_known};
ghost use Rattle.pg_trail_replay.specs.View.{state_of, loose_of, if_known, tasks_on, tasks_in};

use crate::looseness::covers;
use crate::task::{Halt, Looseness, Start, Task, counted};
use crate::task_lists::TaskLists;
use pg_grammar_form::RuleId;
use pg_grammar_value::TrailItem;
use pg_table::Table;
use pg_tree::Forest;
use std::alloc::AllocError;

/// The place where a rule's body was last found to consume no text and no item, and a looseness at which its trees can be
/// left out.
#[derive(Clone, Copy)]
pub struct Known<'a> {
    pub place: usize,
    pub loose: Looseness<'a>,
}

/// The remaining tasks, the next one last, and what was derived before them. A caller that replays step by step can look at it between the steps.
#[derive(Drop)]
pub struct Replayer<'a> {
    pub tasks: TaskLists<'a>,
    /// The place in the text, in characters.
    pub place: usize,
    /// The operators in force there.
    pub table: Table,
    pub forest: Forest,
    /// The items that haven't been taken yet.
    pub rest: &'a [TrailItem],
    /// The rules that were entered since something was last consumed, and that haven't ended; the newest last.
    pub entered: Vec<RuleId>,
    /// The number of trees before each operand that hasn't been applied yet; the newest last.
    pub marks: Vec<usize>,
    /// The current looseness.
    pub loose: Looseness<'a>,
    /// For each rule, by its number, where its body was last found to consume nothing, if it was: there it does so again.
    pub known: Vec<Option<Known<'a>>>,
    /// For each node, by its number, the place where its form was last found to consume nothing and to make an empty leaf,
    /// if it was.
    pub blank: Vec<Option<usize>>,
}

impl<'a> Replayer<'a> {
    /// Pushes tasks, of which the last is the next.
    pub(crate) fn push_tasks(&mut self, tasks: &[Task<'a>]) -> Result<(), AllocError>
        ensures { OnOk result (state_of self.new ≡ with_tasks (tasks_on (tasks_in self.old.tasks) tasks.now) (state_of self.old)) }
    {
        self.tasks.push_all(tasks)
    }

    /// Pushes tasks, of which the last is the next, and doesn't stop.
    pub(crate) fn go_on(&mut self, tasks: &[Task<'a>]) -> Result<Option<Halt>, AllocError>
        ensures { IfOk result (λ halt. told halt (state_of self.new) ≡
            on (with_tasks (tasks_on (tasks_in self.old.tasks) tasks.now) (state_of self.old))) }
    {
        self.push_tasks(tasks)?;
        Ok(None)
    }

    /// The present place, and the numbers of trees and of items left. The only error is that one has more than 32 bits.
    pub(crate) fn start(&self) -> Result<Start, AllocError>
        ensures { IfOk result (λ from. from ≡ record { place = self.now.place; trees = length self.now.forest; items = length self.now.rest.now }) }
    {
        Ok(Start {
            place: counted(self.place)?,
            trees: counted(self.forest.len())?,
            items: counted(self.rest.len())?,
        })
    }

    /// Takes an item, after which these are left.
    pub(crate) fn take_item(&mut self, rest: &'a [TrailItem])
        ensures { state_of self.new ≡ after_item rest.now (state_of self.old) }
    {
        self.rest = rest;
        self.entered.clear();
    }

    /// Moves to the place in the text.
    pub(crate) fn move_to(&mut self, place: usize)
        ensures { state_of self.new ≡ moved_to place (state_of self.old) }
    {
        if self.place != place {
            self.entered.clear();
        }
        self.place = place;
    }

    /// Enters the rule.
    #[tactic(auto, using(crate::proofs::Stack::rule_entered))]
    pub(crate) fn enter_body(&mut self, rule: RuleId) -> Result<(), AllocError>
        ensures { OnOk result (state_of self.new ≡ with_entered (rule ∷ reverse self.old.entered.items) (state_of self.old)) }
    {
        self.entered.extend_from_slice(&[rule])
    }

    /// Sets the looseness from here on.
    pub(crate) fn set_loose(&mut self, loose: Looseness<'a>)
        ensures { state_of self.new ≡ with_loose (loose_of loose.entry) (state_of self.old) }
    {
        self.loose = loose;
    }

    /// Remembers that the rule's body consumes nothing here, and that its trees can be left out at this looseness.
    pub(crate) fn keep(&mut self, rule: RuleId, loose: Looseness<'a>)
        ensures { state_of self.new ≡ with_known (map if_known (set self.old.known.items rule (Some (record { place = self.old.place; loose = loose.entry })))) (state_of self.old) }
    {
        let number = rule.index();
        if number < self.known.len() {
            self.known[number] = Some(Known {
                place: self.place,
                loose,
            });
        }
    }

    /// Whether the rule's body is known to consume nothing here and to give only trees that can be left out.
    #[tactic(auto, using(crate::proofs::KnownRules::looked_up, crate::proofs::KnownRules::not_there))]
    pub(crate) fn is_known(&self, rule: RuleId) -> bool
        ensures { result ≡ is_known rule (state_of self.now) }
    {
        match self.known.get(rule.index()) {
            Some(Some(known)) => known.place == self.place && covers(&known.loose, &self.loose),
            Some(None) | None => false,
        }
    }

    /// Ends the newest rule, if it is still open.
    #[tactic(auto, using(crate::proofs::Stack::rule_left))]
    pub(crate) fn leave_body(&mut self)
        ensures { state_of self.new ≡ with_entered (without_newest (reverse self.old.entered.items)) (state_of self.old) }
    {
        let _rule = self.entered.pop();
    }

    /// Begins the next operand.
    #[tactic(auto, using(crate::proofs::Stack::rule_entered))]
    pub(crate) fn mark(&mut self) -> Result<(), AllocError>
        ensures { OnOk result (state_of self.new ≡ with_marks (length self.old.forest ∷ reverse self.old.marks.items) (state_of self.old)) }
    {
        let trees = self.forest.len();
        self.marks.extend_from_slice(&[trees])
    }

    /// Removes the newest operand's mark: it is joined with the operand before it, or ends the expression.
    #[tactic(auto, using(crate::proofs::Stack::rule_left))]
    pub(crate) fn unmark(&mut self)
        ensures { state_of self.new ≡ with_marks (without_newest (reverse self.old.marks.items)) (state_of self.old) }
    {
        let _mark = self.marks.pop();
    }

    /// The number of trees before the newest operand.
    #[tactic(auto, using(crate::proofs::Stack::mark_last, crate::proofs::Stack::mark_none))]
    pub(crate) fn newest_mark(&self) -> usize
        ensures { result ≡ first_mark (reverse self.now.marks.items) }
    {
        match self.marks.last() {
            Some(mark) => *mark,
            None => 0,
        }
    }
}
