//! Operators that are applied to their operands.

ghost use Rattle.std.specs.Prelude.{◌≡◌, ◌≤◌, true, length, take, drop, IfOk, IfSome};
ghost use Rattle.pg_machine_plan.specs.declared.instruction.Keep.TheVariants.{Kept};
ghost use Rattle.pg_machine_quick.specs.Running.{shown, Does};
ghost use Rattle.pg_machine_quick.specs.Tape.{begin_of, tape_made, tape_affixed, tape_postfixed, tape_applied, tape_last_applied, tape_settled};
ghost use Rattle.pg_machine_quick.specs.Turns.{builder_of};

use crate::frame::{Frame, Operation};
use crate::operators::Found;
use crate::running::Running;
use crate::step::Step;
use pg_grammar_form::{BuilderUse, OperatorBuilders, Role};
use pg_machine_plan::Keep;
use pg_text::{Text, utf8};
use pg_tree_placed::PlacedForest;
use std::alloc::{AllocError, Global};

impl<'a> Running<'a> {
    /// An operator of this role that waited is applied to the trees since its operands begin.
    pub(crate) fn apply(
        &mut self,
        alloc: Global,
        keep: Keep,
        builders: &OperatorBuilders,
        text: &Text,
        role: Role,
        operation: Operation,
    ) -> Result<Step, AllocError>
        ensures { IfOk result (λ step. Does (tape_applied text.now keep builders.now (record operation { role = role }) (shown self.old) (shown self.old).stack (begin_of (shown self.old).stack)) step (shown self.new)) }
    {
        let Some(begin) = self.begin() else {
            return Ok(Step::GivesUp);
        };
        let (place, count) = (operation.place as usize, operation.count as usize);
        let Some(symbol) = symbol_at(text, place, count) else {
            return Ok(Step::GivesUp);
        };
        if begin > self.trees.len() {
            return Ok(Step::GivesUp);
        }
        let used = builder_of(builders, role);
        if make(alloc, &mut self.trees, keep, used, symbol, begin)? {
            Ok(Step::GoesOn)
        } else {
            Ok(Step::GivesUp)
        }
    }

    /// The operator that waits last is applied, if its rank is this.
    pub(crate) fn settle(
        &mut self,
        alloc: Global,
        keep: Keep,
        builders: &OperatorBuilders,
        text: &Text,
        rank: usize,
    ) -> Result<Step, AllocError>
        ensures { IfOk result (λ step. Does (tape_settled text.now keep builders.now rank (shown self.old) (shown self.old).stack) step (shown self.new)) }
    {
        match self.awaited(rank) {
            Some(_) => self.settle_last(alloc, keep, builders, text),
            None => Ok(self.pass(1)),
        }
    }

    /// The operator that waits last is applied.
    fn settle_last(
        &mut self,
        alloc: Global,
        keep: Keep,
        builders: &OperatorBuilders,
        text: &Text,
    ) -> Result<Step, AllocError>
        ensures { IfOk result (λ step. Does (tape_last_applied text.now keep builders.now (shown self.old) (shown self.old).stack) step (shown self.new)) }
    {
        match self.frames.pop() {
            Some(Frame::Operates(operation)) => {
                self.apply(alloc, keep, builders, text, operation.role, operation)
            }
            Some(Frame::Holds(_) | Frame::Returns(_) | Frame::Encloses(_, _) | Frame::Marks(_, _))
            | None => Ok(Step::GivesUp),
        }
    }

    /// A postfix operator is applied, if one was read.
    pub(crate) fn postfix(
        &mut self,
        alloc: Global,
        keep: Keep,
        builders: &OperatorBuilders,
        text: &Text,
        found: Option<Found>,
    ) -> Result<Step, AllocError>
        ensures { IfOk result (λ step. Does (tape_postfixed text.now keep builders.now (shown self.old) found) step (shown self.new)) }
    {
        match found {
            Some(found) => self.affix(alloc, keep, builders, text, found),
            None => Ok(self.pass(1)),
        }
    }

    /// A postfix operator that was read is applied.
    fn affix(
        &mut self,
        alloc: Global,
        keep: Keep,
        builders: &OperatorBuilders,
        text: &Text,
        found: Found,
    ) -> Result<Step, AllocError>
        ensures { IfOk result (λ step. Does (tape_affixed text.now keep builders.now (shown self.old) found (begin_of (shown self.old).stack)) step (shown self.new)) }
    {
        let Some(begin) = self.begin() else {
            return Ok(Step::GivesUp);
        };
        let Some(symbol) = symbol_at(text, self.place, found.count) else {
            return Ok(Step::GivesUp);
        };
        if begin > self.trees.len() {
            return Ok(Step::GivesUp);
        }
        let Some(pc) = self.pc.checked_add(1) else {
            return Ok(Step::GivesUp);
        };
        let used = &builders.postfix;
        if !make(alloc, &mut self.trees, keep, used, symbol, begin)? {
            return Ok(Step::GivesUp);
        }
        self.pc = pc;
        self.place = found.end;
        self.taken = true;
        Ok(Step::GoesOn)
    }
}

/// The builder of operators of a role.
fn builder_of(builders: &OperatorBuilders, role: Role) -> &BuilderUse
    ensures { result.now ≡ builder_of builders.now role }
{
    match role {
        Role::InfixLeft | Role::InfixRight | Role::InfixNone => &builders.infix,
        Role::Prefix => &builders.prefix,
        Role::Postfix => &builders.postfix,
    }
}

/// So many characters from a place of the text on, if there are.
fn symbol_at(text: &Text, place: usize, count: usize) -> Option<&[char]>
    ensures { IfSome result (λ symbol. symbol.now ≡ take count (drop place text.now)) }
{
    let characters = text.characters();
    if place > characters.len() || count > characters.len() - place {
        return None;
    }
    Some(&characters[place..place + count])
}

/// The trees after so many become one, with the symbol, where trees are kept. Says whether they did.
fn make(
    alloc: Global,
    trees: &mut PlacedForest<'_>,
    keep: Keep,
    used: &BuilderUse,
    symbol: &[char],
    count: usize,
) -> Result<bool, AllocError>
    requires { count ≤ length trees.old }
    ensures { IfOk result (λ done. done ≡ true → trees.new ≡ tape_made keep used.now symbol.now count trees.old) }
{
    match keep {
        Keep::Kept => build(alloc, trees, used, symbol, count),
        Keep::Hidden => Ok(true),
    }
}

/// The trees after so many become one, with the symbol. Says whether they did. A symbol of one character takes no memory.
fn build(
    alloc: Global,
    trees: &mut PlacedForest<'_>,
    used: &BuilderUse,
    symbol: &[char],
    count: usize,
) -> Result<bool, AllocError>
    requires { count ≤ length trees.old }
    ensures { IfOk result (λ done. done ≡ true → trees.new ≡ tape_made Kept used.now symbol.now count trees.old) }
{
    match symbol {
        [only] => trees.build(&used.shape, only.encode_utf8(&mut [0; 4]), count),
        [] | [_, _, ..] => build_by_name(alloc, trees, used, symbol, count),
    }
}

/// The same, with the symbol's text in memory of its own.
fn build_by_name(
    alloc: Global,
    trees: &mut PlacedForest<'_>,
    used: &BuilderUse,
    symbol: &[char],
    count: usize,
) -> Result<bool, AllocError>
    requires { count ≤ length trees.old }
    ensures { IfOk result (λ done. done ≡ true → trees.new ≡ tape_made Kept used.now symbol.now count trees.old) }
{
    let name = utf8(alloc, symbol)?;
    trees.build(&used.shape, name.as_str(), count)
}
