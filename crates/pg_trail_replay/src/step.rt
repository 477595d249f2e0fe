//! Performs one task.

ghost use Rattle.std.specs.Prelude.{◌≡◌, ◌==◌, ◌∷◌, ◌++◌, [], slice_get, length, take, drop, reverse, Some, IfOk, OnOk, option_copied};
ghost use Rattle.pg_tree.specs.Built.{built};
ghost use Rattle.pg_trail_replay.specs.Tasks.{on, told, node_turn, form_turn, choice_turn, numbered_turn, rule_turn, leave_turn, is_entered, parts_turn, turn, next_turn};
ghost use Rattle.pg_trail_replay.specs.View.{state_of, task_of, short_of, rounds_of};

use crate::replay_fault::Mismatch;
use crate::replayer::Replayer;
use crate::task::{Chain, Halt, Leaving, Looseness, RoundsTask, ShortTask, Start, Task};
use pg_grammar_form::{Form, Node, NodeId, RuleId};
use pg_grammar_value::{Grammar, TrailItem};
use pg_text::Text;
use pg_tree::{Forest, Shape};
use std::alloc::{AllocError, Global};

impl<'a> Replayer<'a> {
    /// Performs the next task. If it can't, the result is the reason.
    pub fn step(
        &mut self,
        alloc: Global,
        grammar: &'a Grammar,
        text: &Text,
    ) -> Result<Option<Halt>, AllocError>
        ensures { IfOk result (λ halt. told halt (state_of self.new) ≡ next_turn grammar.now text.now (state_of self.old)) }
    {
        match self.tasks.pop() {
            Some(task) => self.perform(alloc, grammar, text, &task),
            None => Ok(Some(Halt::Ended)),
        }
    }

    /// Performs a task that was popped. If it can't, the result is the reason.
    pub fn perform(
        &mut self,
        alloc: Global,
        grammar: &'a Grammar,
        text: &Text,
        task: &Task<'a>,
    ) -> Result<Option<Halt>, AllocError>
        ensures { IfOk result (λ halt. told halt (state_of self.new) ≡ turn grammar.now text.now (task_of task.now) (state_of self.old)) }
    {
        match task {
            Task::Short(short) => self.perform_short(alloc, grammar, text, short),
            Task::Rounds(rounds) => self.perform_rounds(grammar, text, rounds),
            Task::Close(closing) => self.close(text, closing),
            Task::Leave(leaving) => {
                let Start {
                    place,
                    trees,
                    items,
                } = leaving.from;
                self.leave(leaving.rule, place as usize, trees as usize, items as usize);
                Ok(None)
            }
        }
    }

    fn perform_short(
        &mut self,
        alloc: Global,
        grammar: &'a Grammar,
        text: &Text,
        task: &ShortTask<'a>,
    ) -> Result<Option<Halt>, AllocError>
        ensures { IfOk result (λ halt. told halt (state_of self.new) ≡ turn grammar.now text.now (short_of task.now) (state_of self.old)) }
    {
        match task {
            ShortTask::Node(node) => self.enter(alloc, grammar, text, *node),
            ShortTask::Parts(parts) => self.part(parts),
            ShortTask::Rounds { part, left } => self.round(*part, *left),
            ShortTask::Settle(loose) => {
                self.set_loose(*loose);
                Ok(None)
            }
            ShortTask::Fold { used, trees } => self.fold(used, *trees),
            ShortTask::Term(part, loose) => self.term(*part, *loose),
            ShortTask::Symbol(operator) => Ok(self.symbol(grammar, text, operator)),
            ShortTask::Application { builders, operator } => self.apply(alloc, builders, operator),
            ShortTask::Unmark => self.end_expression(),
        }
    }

    fn perform_rounds(
        &mut self,
        _grammar: &'a Grammar,
        _text: &Text,
        task: &RoundsTask<'a>,
    ) -> Result<Option<Halt>, AllocError>
        ensures { IfOk result (λ halt. told halt (state_of self.new) ≡ turn _grammar.now _text.now (rounds_of task.now) (state_of self.old)) }
    {
        match task {
            RoundsTask::MoreRounds {
                part,
                left,
                place,
                trees,
                items,
            } => self.more_rounds(*part, *left, *place, *trees, *items),
            RoundsTask::Links { chain, left, trees } => self.links(chain, *left, *trees),
            RoundsTask::Operand {
                chain,
                left,
                trees,
                from,
            } => self.operand(chain, *left, *trees, *from),
            RoundsTask::Linked {
                chain,
                left,
                trees,
                later,
                from,
            } => self.linked(chain, *left, *trees, *later, *from),
        }
    }

    /// Enters a node.
    fn enter(
        &mut self,
        alloc: Global,
        grammar: &'a Grammar,
        text: &Text,
        node: NodeId,
    ) -> Result<Option<Halt>, AllocError>
        ensures { IfOk result (λ halt. told halt (state_of self.new) ≡
            node_turn grammar.now text.now node (slice_get grammar.now.nodes node) (state_of self.old)) }
    {
        match node_at(grammar.nodes(), node.index()) {
            Some(form) => self.enter_form(alloc, grammar, text, node, form),
            None => Ok(Some(Halt::Stopped(Mismatch::ItemDiffers))),
        }
    }

    /// Enters a form.
    fn enter_form(
        &mut self,
        alloc: Global,
        grammar: &'a Grammar,
        text: &Text,
        node: NodeId,
        form: &'a Node,
    ) -> Result<Option<Halt>, AllocError>
        requires { slice_get grammar.now.nodes node ≡ Some form.now }
        ensures { IfOk result (λ halt. told halt (state_of self.new) ≡ form_turn grammar.now text.now node form.now (state_of self.old)) }
    {
        match form {
            Form::Leaf(leaf) => self.leaf(alloc, grammar, text, node, leaf),
            Form::Seq(parts) => self.go_on(&[Task::Short(ShortTask::Parts(parts.as_slice()))]),
            Form::Choice(parts) => self.choose(parts.as_slice()),
            Form::Many(part) => self.begin_rounds(*part),
            Form::Rule(rule) => self.enter_rule(grammar, *rule),
            Form::Around(around, part) => self.enter_around(node, around, *part),
            Form::Chain(side, used, part, separator) => {
                let chain = Chain {
                    side: *side,
                    used,
                    part: *part,
                    separator: *separator,
                };
                self.begin_chain(&chain)
            }
            Form::Expression(builders, part) => self.begin_expression(
                alloc, grammar, builders, *part,
            ),
        }
    }

    /// Takes the item that chooses an alternative.
    fn choose(&mut self, parts: &'a [NodeId]) -> Result<Option<Halt>, AllocError>
        ensures { IfOk result (λ halt. told halt (state_of self.new) ≡
            choice_turn parts.now self.old.rest.now (state_of self.old)) }
    {
        match self.rest.split_first() {
            Some((TrailItem::Alt(number), rest)) => self.choose_numbered(parts, *number, rest),
            Some((TrailItem::Rounds(_) | TrailItem::Ops(_), _)) | None => Ok(Some(Halt::Stopped(
                Mismatch::ItemDiffers,
            ))),
        }
    }

    /// Enters the alternative with this number, from 1.
    fn choose_numbered(
        &mut self,
        parts: &'a [NodeId],
        number: usize,
        rest: &'a [TrailItem],
    ) -> Result<Option<Halt>, AllocError>
        ensures { IfOk result (λ halt. told halt (state_of self.new) ≡ numbered_turn parts.now number rest.now (state_of self.old)) }
    {
        if number == 0 {
            return Ok(Some(Halt::Stopped(Mismatch::ItemDiffers)));
        }
        match parts.get(number - 1) {
            Some(part) => {
                self.take_item(rest);
                self.go_on(&[Task::Short(ShortTask::Node(*part))])
            }
            None => Ok(Some(Halt::Stopped(Mismatch::ItemDiffers))),
        }
    }

    /// Enters a rule, unless it is known to consume nothing here and to give only trees that can be left out. Stops if the rule is open.
    fn enter_rule(&mut self, grammar: &'a Grammar, rule: RuleId) -> Result<Option<Halt>, AllocError>
        ensures { IfOk result (λ halt. told halt (state_of self.new) ≡
            rule_turn rule (slice_get grammar.now.rules rule) (state_of self.old)) }
    {
        match grammar.rules().get(rule.index()) {
            Some(named) => {
                if self.is_known(rule) {
                    return Ok(None);
                }
                if self.is_entered(rule) {
                    return Ok(Some(Halt::Stopped(Mismatch::ItemDiffers)));
                }
                self.enter_body(rule)?;
                let from = self.start()?;
                let leave = Task::Leave(Leaving { rule, from });
                self.go_on(&[leave, Task::Short(ShortTask::Node(named.body))])
            }
            None => Ok(Some(Halt::Stopped(Mismatch::ItemDiffers))),
        }
    }

    /// Ends the rule's body. If it consumed nothing, remembers that, with a looseness at which its trees can be left out.
    #[tactic(auto, using(crate::proofs::KnownRules::kept))]
    fn leave(&mut self, rule: RuleId, place: usize, trees: usize, items: usize)
        ensures { on (state_of self.new) ≡ leave_turn rule place trees items (state_of self.old) }
    {
        if self.is_still(place, items) {
            let loose = if trees == self.forest.len() {
                self.loose
            } else {
                Looseness::OnlyText
            };
            self.keep(rule, loose);
        }
        self.leave_body();
    }

    /// Whether the rule was entered since something was last consumed, and hasn't ended.
    #[tactic(auto, using(crate::proofs::Stack::entered_reversed))]
    fn is_entered(&self, rule: RuleId) -> bool
        ensures { result ≡ is_entered rule (reverse self.now.entered.items) }
    {
        is_among(self.entered.as_slice(), rule)
    }

    /// Enters the first part, and then the others.
    fn part(&mut self, parts: &'a [NodeId]) -> Result<Option<Halt>, AllocError>
        ensures { IfOk result (λ halt. told halt (state_of self.new) ≡ parts_turn parts.now (state_of self.old)) }
    {
        match parts.split_first() {
            Some((part, rest)) => self.go_on(&[
                Task::Short(ShortTask::Parts(rest)),
                Task::Short(ShortTask::Node(*part)),
            ]),
            None => Ok(None),
        }
    }
}

/// The node with this number, if there is one.
fn node_at(nodes: &[Node], number: usize) -> Option<&Node>
    ensures { option_copied result ≡ slice_get nodes.now number }
{
    nodes.get(number)
}

/// Builds the trees after the first `trees` into one, in place.
pub(crate) fn build(
    shape: &Shape,
    symbol: &str,
    trees: usize,
    forest: &mut Forest,
) -> Result<(), AllocError>
    ensures { OnOk result (forest.new ≡ take trees forest.old ++ built shape.now symbol.now (drop trees forest.old) ∷ []) }
{
    forest.build(shape, symbol, trees.min(forest.len()))
}

/// Whether the rule is one of these.
fn is_among(rules: &[RuleId], rule: RuleId) -> bool
    ensures { result ≡ is_entered rule rules.now }
{
    for other in rules {
        if other.index() == rule.index() {
            return true;
        }
    }
    false
}
