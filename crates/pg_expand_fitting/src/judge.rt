//! Operators are judged one after another, as they are read. Each waits until its last operand ends, which the next operator shows.

ghost use Rattle.std.specs.Prelude.{◌≡◌, option_map, IfOk, OnOk, map};
ghost use Rattle.pg_expand_fitting.specs.Judge.{known_of, step_of, waiting_of, judge_of, closed_of, taken, operand_of, top_takes, closed_until, closed_for, before as goes_before, between_closed, after_closed, waits, follows, placed, all_applied, finished};

use crate::known::{Known, goes_left, goes_under, takes_postfix};
use crate::step::Step;
use pg_grammar_value::Fixity;
use std::alloc::AllocError;

/// The operators that wait for their last operand, the newest last, and the steps so far.
#[derive(Drop)]
pub struct Judge<'a> {
    pub waiting: Vec<Known<'a>>,
    /// The operator that was read last, if it was a postfix operator; otherwise an operand is still to come.
    pub last: Option<Known<'a>>,
    pub steps: Vec<Step<'a>>,
}

impl<'a> Judge<'a> {
    /// Reads an operator on this side of its operands. Returns whether it may stand there.
    pub fn place(&mut self, fixity: Fixity, operator: Known<'a>) -> Result<bool, AllocError>
        ensures { IfOk result (λ b. taken b self.new ≡ placed fixity (known_of operator.entry) (judge_of self.old)) }
    {
        match fixity {
            Fixity::Prefix => self.before(operator),
            Fixity::Infix => self.between(operator),
            Fixity::Postfix => self.after(operator),
        }
    }

    /// Reads a prefix operator, if an operand is still to come.
    fn before(&mut self, operator: Known<'a>) -> Result<bool, AllocError>
        ensures { IfOk result (λ b. taken b self.new ≡ goes_before (known_of operator.entry) (judge_of self.old)) }
    {
        if self.last.is_some() || !self.top_takes(operator) {
            return Ok(false);
        }
        self.wait(operator)?;
        Ok(true)
    }

    /// Reads an infix operator.
    fn between(&mut self, operator: Known<'a>) -> Result<bool, AllocError>
        ensures { IfOk result (λ b. taken b self.new ≡ between_closed (known_of operator.entry) (closed_for (known_of operator.entry) (judge_of self.old))) }
    {
        let root = self.close_for(operator)?;
        if !goes_left(operator, root) {
            return Ok(false);
        }
        self.wait(operator)?;
        Ok(true)
    }

    /// Reads a postfix operator.
    fn after(&mut self, operator: Known<'a>) -> Result<bool, AllocError>
        ensures { IfOk result (λ b. taken b self.new ≡ after_closed (known_of operator.entry) (closed_for (known_of operator.entry) (judge_of self.old))) }
    {
        let root = self.close_for(operator)?;
        if !takes_postfix(operator, root) {
            return Ok(false);
        }
        self.follow(operator)?;
        Ok(true)
    }

    /// Whether a tree with this operator at its root may be the last operand of the newest waiting operator.
    #[tactic(auto, using(crate::proofs::Stack::newest_takes, crate::proofs::Stack::none_takes))]
    fn top_takes(&self, operator: Known<'a>) -> bool
        ensures { result ≡ top_takes (waiting_of self.now.waiting.items) (known_of operator.entry) }
    {
        match self.waiting.last() {
            Some(newest) => goes_under(*newest, operator),
            None => true,
        }
    }

    /// Lets the operator wait for its last operand.
    #[tactic(auto, using(crate::proofs::Stack::waiting_pushed, crate::proofs::Stack::step_pushed))]
    fn wait(&mut self, operator: Known<'a>) -> Result<(), AllocError>
        ensures { OnOk result (judge_of self.new ≡ waits (known_of operator.entry) (waiting_of self.old.waiting.items) (map step_of self.old.steps.items)) }
    {
        self.steps.push(Step::Symbol(operator.applied))?;
        self.waiting.push(operator)?;
        self.last = None;
        Ok(())
    }

    /// Applies the operator to the operand before it.
    #[tactic(auto, using(crate::proofs::Stack::step_pushed))]
    fn follow(&mut self, operator: Known<'a>) -> Result<(), AllocError>
        ensures { OnOk result (judge_of self.new ≡ follows (known_of operator.entry) (waiting_of self.old.waiting.items) (map step_of self.old.steps.items)) }
    {
        self.steps.push(Step::Symbol(operator.applied))?;
        self.steps.push(Step::Application(operator.applied))?;
        self.last = Some(operator);
        Ok(())
    }

    /// Applies waiting operators until this one may be in the last operand of one that waits. Returns the root operator of the operand before it, if that
    /// isn't a term.
    fn close_for(&mut self, operator: Known<'a>) -> Result<Option<Known<'a>>, AllocError>
        ensures { IfOk result (λ root. closed_of root self.new ≡ closed_for (known_of operator.entry) (judge_of self.old)) }
    {
        let root = self.operand()?;
        self.close_until(operator, root)
    }

    /// Reads the operand before, and returns its root operator, if it isn't a term.
    #[tactic(auto, using(crate::proofs::Stack::step_pushed))]
    fn operand(&mut self) -> Result<Option<Known<'a>>, AllocError>
        ensures { IfOk result (λ root. closed_of root self.new ≡ operand_of (waiting_of self.old.waiting.items) (option_map known_of self.old.last) (map step_of self.old.steps.items)) }
    {
        let last = self.last;
        match last {
            Some(operator) => Ok(Some(operator)),
            None => {
                self.steps.push(Step::Term)?;
                Ok(None)
            }
        }
    }

    /// Applies waiting operators after an operand with this root operator.
    #[tactic(auto, using(crate::proofs::Stack::waiting_pushed, crate::proofs::Stack::step_pushed, crate::proofs::Stack::closes_here, crate::proofs::Stack::closes_on))]
    fn close_until(
        &mut self,
        operator: Known<'a>,
        made: Option<Known<'a>>,
    ) -> Result<Option<Known<'a>>, AllocError>
        ensures { IfOk result (λ root. closed_of root self.new ≡
            closed_until (known_of operator.entry) (waiting_of self.old.waiting.items) (option_map known_of made.entry) (map step_of self.old.steps.items)) }
    {
        let mut root = made;
        while let Some(newest) = self.waiting.pop() {
            if goes_under(newest, operator) {
                self.waiting.push(newest)?;
                return Ok(root);
            }
            self.steps.push(Step::Application(newest.applied))?;
            root = Some(newest);
        }
        Ok(root)
    }

    /// The steps, if nothing more is read.
    pub fn finish(self) -> Result<Vec<Step<'a>>, AllocError>
        ensures { IfOk result (λ steps. map step_of steps.items ≡ finished (judge_of self.entry)) }
    {
        let mut judge = self;
        let _root = judge.operand()?;
        let Judge { waiting, steps, .. } = judge;
        apply_all(waiting, steps)
    }
}

/// Applies all waiting operators.
#[tactic(auto, using(crate::proofs::Stack::waiting_pushed, crate::proofs::Stack::step_pushed))]
fn apply_all<'a>(waiting: Vec<Known<'a>>, steps: Vec<Step<'a>>) -> Result<Vec<Step<'a>>, AllocError>
    ensures { IfOk result (λ all. map step_of all.items ≡ all_applied (waiting_of waiting.entry.items) (map step_of steps.entry.items)) }
{
    let mut waiting = waiting;
    let mut steps = steps;
    while let Some(newest) = waiting.pop() {
        steps.push(Step::Application(newest.applied))?;
    }
    Ok(steps)
}
