//! The code of each form.

use crate::instruction::{Instruction, Keep};
use crate::lay_code::{FAIL, Laying, Task, Way};
use crate::lay_needs::{Needs, is_satisfy, needs_at};
use pg_grammar_form::{Around, Form, Node, NodeId, RuleId, Side};
use std::alloc::AllocError;

/// An alternative with so many instructions at most is laid out both to be gone into and to be tried, where it needs both.
const SMALL: usize = 12;

impl Laying<'_> {
    /// Performs a task.
    pub(crate) fn perform(&mut self, task: Task) -> Result<(), AllocError> {
        match task {
            Task::Node(keep, node) => self.lay_node(keep, node),
            Task::Body(keep, node, label) => {
                self.set(label);
                self.to_do(&[Task::Node(keep, node), Task::Put(Instruction::Return)])
            }
            Task::Put(instruction) => self.put(instruction),
            Task::Here(label) => {
                self.set(label);
                Ok(())
            }
            Task::Ends(keep, node, begin) => {
                self.note(keep, node, begin);
                Ok(())
            }
        }
    }

    /// Begins the code of a node.
    fn lay_node(&mut self, keep: Keep, id: NodeId) -> Result<(), AllocError> {
        let grammar = self.grammar;
        match grammar.nodes().get(id.index()) {
            Some(node) => {
                let begin = self.code.len();
                self.to_do(&[Task::Ends(keep, id, begin)])?;
                self.lay_form(keep, id, node)
            }
            None => self.give_up(),
        }
    }

    /// Lays nothing out.
    fn give_up(&mut self) -> Result<(), AllocError> {
        self.gives_up = true;
        Ok(())
    }

    /// Begins the code of a node of this form.
    fn lay_form(&mut self, keep: Keep, id: NodeId, node: &Node) -> Result<(), AllocError> {
        match node {
            Form::Leaf(_) => self.put(Instruction::Read(keep, id)),
            Form::Seq(parts) => {
                self.put(Instruction::Enter)?;
                self.lay_parts(keep, parts.as_slice())
            }
            Form::Choice(parts) => self.lay_choice(keep, parts.as_slice()),
            Form::Many(part) => self.lay_many(keep, *part),
            Form::Chain(Side::Left, _, operand, separator) => {
                self.lay_chain(keep, id, *operand, *separator)
            }
            Form::Rule(rule) => self.lay_call(keep, *rule),
            Form::Around(around, part) => self.lay_around(keep, id, around, *part),
            Form::Expression(_, term) => self.lay_expression(keep, id, *term),
            Form::Chain(Side::Right, _, operand, separator) => {
                self.lay_right_chain(keep, id, *operand, *separator)
            }
        }
    }

    /// The code of parts, one after another.
    fn lay_parts(&mut self, keep: Keep, parts: &[NodeId]) -> Result<(), AllocError> {
        for part in parts.iter().rev() {
            self.to_do(&[Task::Node(keep, *part)])?;
        }
        Ok(())
    }

    /// A use of a rule.
    fn lay_call(&mut self, keep: Keep, rule: RuleId) -> Result<(), AllocError> {
        let grammar = self.grammar;
        match grammar.rules().get(rule.index()) {
            Some(named) => {
                if is_inside(self.needs, named.body) {
                    return self.lay_inside(keep, named.body);
                }
                let label = self.body(keep, rule.index(), named.body)?;
                self.put(Instruction::Call(label))
            }
            None => self.give_up(),
        }
    }

    /// A rule's body at its use.
    fn lay_inside(&mut self, keep: Keep, body: NodeId) -> Result<(), AllocError> {
        self.put(Instruction::Enter)?;
        self.to_do(&[Task::Node(keep, body)])
    }

    /// A form around a part.
    fn lay_around(
        &mut self,
        keep: Keep,
        id: NodeId,
        around: &Around,
        part: NodeId,
    ) -> Result<(), AllocError> {
        let below = keep_below(keep, around);
        if is_transparent(keep, around) {
            self.put(Instruction::Enter)?;
            self.to_do(&[Task::Node(below, part)])
        } else {
            self.put(Instruction::Open(!around.is_try()))?;
            self.to_do(&[
                Task::Node(below, part),
                Task::Put(Instruction::Close(keep, id)),
            ])
        }
    }

    // ---- choices

    /// A choice: a table, and then each alternative.
    fn lay_choice(&mut self, keep: Keep, parts: &[NodeId]) -> Result<(), AllocError> {
        let end = self.label()?;
        self.to_do(&[Task::Here(end)])?;
        let mut is_last = true;
        for part in parts.iter().rev() {
            self.lay_alternative(keep, *part, end, is_last)?;
            is_last = false;
        }
        let table = self.table(1);
        self.put(Instruction::Pick(table))
    }

    /// An alternative, before those after it.
    fn lay_alternative(
        &mut self,
        keep: Keep,
        part: NodeId,
        end: usize,
        is_last: bool,
    ) -> Result<(), AllocError> {
        let needs = needs_at(self.needs, part);
        let is_marked = needs.is_unknown && !is_last;
        let is_plain = needs.takes || needs.is_empty || needs.is_unknown && is_last;
        let marked = if is_marked {
            Some(self.tried(keep, part, end)?)
        } else {
            None
        };
        let plain = if is_plain && (!is_marked || needs.size <= SMALL) {
            Some(self.gone_into(keep, part, end, is_last)?)
        } else {
            None
        };
        self.ways.push(Way {
            node: part,
            is_last,
            otherwise: FAIL,
            plain,
            marked,
            is_round: false,
            table: None,
            counted: 0,
        })?;
        Ok(())
    }

    /// An alternative that is gone into. Answers its label. The end comes after the last one.
    fn gone_into(
        &mut self,
        keep: Keep,
        part: NodeId,
        end: usize,
        is_last: bool,
    ) -> Result<usize, AllocError> {
        let begin = self.label()?;
        if !is_last {
            self.to_do(&[Task::Put(Instruction::Jump(end))])?;
        }
        self.to_do(&[Task::Here(begin), Task::Node(keep, part)])?;
        Ok(begin)
    }

    /// An alternative that is tried, and where it fails, a table for those after it. Answers its label.
    fn tried(&mut self, keep: Keep, part: NodeId, end: usize) -> Result<usize, AllocError> {
        let table = self.table(0);
        let begin = self.label()?;
        let next = self.label()?;
        self.to_do(&[
            Task::Here(begin),
            Task::Put(Instruction::Mark(next)),
            Task::Node(keep, part),
            Task::Put(Instruction::Commit(end)),
            Task::Here(next),
            Task::Put(Instruction::Pick(table)),
        ])?;
        Ok(begin)
    }

    // ---- loops

    /// A repetition.
    fn lay_many(&mut self, keep: Keep, part: NodeId) -> Result<(), AllocError> {
        if is_satisfy(self.grammar.nodes(), part) {
            return self.put(Instruction::Span(keep, part));
        }
        self.put(Instruction::Enter)?;
        let head = self.label()?;
        let out = self.label()?;
        self.set(head);
        self.to_do(&[Task::Here(out)])?;
        let needs = needs_at(self.needs, part);
        let size = needs.size;
        let round = [Task::Node(keep, part)];
        let marked = self.tried_round(needs, &round, Instruction::Again(head), out, &[])?;
        let plain = self.sure_round(needs, size, &round, &[Task::Put(Instruction::Jump(head))])?;
        self.add_round(part, out, plain, marked)?;
        let table = self.table(0);
        self.put(Instruction::Pick(table))
    }

    /// A chain from the left.
    fn lay_chain(
        &mut self,
        keep: Keep,
        id: NodeId,
        operand: NodeId,
        separator: NodeId,
    ) -> Result<(), AllocError> {
        let head = self.label()?;
        let out = self.label()?;
        let fold = self.label()?;
        self.put(Instruction::Hold)?;
        self.to_do(&[Task::Here(out), Task::Put(Instruction::Release)])?;
        let needs = needs_at(self.needs, separator);
        let size = needs
            .size
            .saturating_add(needs_at(self.needs, operand).size);
        let round = [Task::Node(keep, separator), Task::Node(keep, operand)];
        let folds = [
            Task::Put(Instruction::Fold(keep, id)),
            Task::Put(Instruction::Jump(head)),
        ];
        let last = [Task::Here(fold), folds[0], folds[1]];
        let marked = self.tried_round(needs, &round, Instruction::Again(fold), out, &last)?;
        let plain = self.sure_round(needs, size, &round, &folds)?;
        self.add_round(separator, out, plain, marked)?;
        let table = self.table(0);
        self.to_do(&[
            Task::Node(keep, operand),
            Task::Here(head),
            Task::Put(Instruction::Pick(table)),
        ])
    }

    /// A chain from the right: after a separator its link is noted.
    fn lay_right_chain(
        &mut self,
        keep: Keep,
        id: NodeId,
        operand: NodeId,
        separator: NodeId,
    ) -> Result<(), AllocError> {
        let head = self.label()?;
        let link = self.label()?;
        let out = self.label()?;
        self.put(Instruction::Hold)?;
        self.to_do(&[
            Task::Here(out),
            Task::Put(Instruction::FoldLinks(keep, id)),
            Task::Put(Instruction::Release),
        ])?;
        let needs = needs_at(self.needs, separator);
        let round = [Task::Node(keep, separator)];
        let goes_on = [Task::Put(Instruction::Jump(link))];
        let marked = self.tried_round(needs, &round, Instruction::Again(link), out, &[])?;
        let plain = self.sure_round(needs, needs.size, &round, &goes_on)?;
        self.add_round(separator, out, plain, marked)?;
        let table = self.table(0);
        self.to_do(&[
            Task::Node(keep, operand),
            Task::Here(head),
            Task::Put(Instruction::Pick(table)),
            Task::Here(link),
            Task::Put(Instruction::Link),
            Task::Node(keep, operand),
            Task::Put(Instruction::Jump(head)),
        ])
    }

    /// A round that is tried, if one is needed. Answers its label.
    fn tried_round(
        &mut self,
        needs: Needs,
        round: &[Task],
        again: Instruction,
        out: usize,
        last: &[Task],
    ) -> Result<Option<usize>, AllocError> {
        if !needs.is_unknown && !needs.is_empty {
            return Ok(None);
        }
        let begin = self.label()?;
        self.to_do(last)?;
        self.to_do(&[Task::Put(again)])?;
        self.to_do(round)?;
        self.to_do(&[Task::Here(begin), Task::Put(Instruction::Mark(out))])?;
        Ok(Some(begin))
    }

    /// A round that is gone into, if one is needed. Answers its label.
    fn sure_round(
        &mut self,
        needs: Needs,
        size: usize,
        round: &[Task],
        last: &[Task],
    ) -> Result<Option<usize>, AllocError> {
        let is_tried = needs.is_unknown || needs.is_empty;
        if !needs.takes || is_tried && size > SMALL {
            return Ok(None);
        }
        let begin = self.label()?;
        self.to_do(last)?;
        self.to_do(round)?;
        self.to_do(&[Task::Here(begin)])?;
        Ok(Some(begin))
    }

    /// A loop's way.
    fn add_round(
        &mut self,
        node: NodeId,
        out: usize,
        plain: Option<usize>,
        marked: Option<usize>,
    ) -> Result<(), AllocError> {
        self.ways.push(Way {
            node,
            is_last: true,
            otherwise: out,
            plain,
            marked,
            is_round: true,
            table: None,
            counted: 0,
        })?;
        Ok(())
    }
}

/// Whether a body stands at the uses of its rule: a small one that uses no rule.
fn is_inside(needs: &[Needs], body: NodeId) -> bool {
    let needs = needs_at(needs, body);
    !needs.uses_rules && needs.size <= SMALL
}

/// Whether trees are kept below a form that is around a part.
fn keep_below(keep: Keep, around: &Around) -> Keep {
    match around {
        Around::Text | Around::Skip => Keep::Hidden,
        Around::Try | Around::Build(_, _) | Around::Label(_) | Around::Local => keep,
    }
}

/// Whether the form leaves all as it is, but for what is hidden below it.
fn is_transparent(keep: Keep, around: &Around) -> bool {
    match around {
        Around::Label(_) | Around::Skip => true,
        Around::Text | Around::Build(_, _) => match keep {
            Keep::Hidden => true,
            Keep::Kept => false,
        },
        Around::Try | Around::Local => false,
    }
}
