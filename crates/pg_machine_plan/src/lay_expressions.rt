//! The code of expressions.

use crate::instruction::{Instruction, Keep};
use crate::lay_code::{Laying, Task};
use pg_grammar_form::{Decl, NodeId};
use std::alloc::AllocError;

impl Laying<'_> {
    /// An expression: the rows of the grammar's own table around the term, the loosest first.
    pub(crate) fn lay_expression(
        &mut self,
        keep: Keep,
        id: NodeId,
        term: NodeId,
    ) -> Result<(), AllocError> {
        let rows = rows_of(self.grammar.initials());
        self.put(Instruction::Rows(rows))?;
        self.to_do(&[Task::Put(Instruction::Release)])?;
        for row in (0..rows).rev() {
            let head = self.label()?;
            self.set(head);
            self.put(Instruction::ReadPrefix(row))?;
            self.lay_row_end(keep, id, row, head)?;
        }
        self.to_do(&[Task::Node(keep, term)])
    }

    /// The code of a row after the tighter ones.
    fn lay_row_end(
        &mut self,
        keep: Keep,
        id: NodeId,
        row: usize,
        head: usize,
    ) -> Result<(), AllocError> {
        let rank = row.saturating_mul(2);
        self.to_do(&[
            Task::Put(Instruction::Settle(keep, id, rank)),
            Task::Put(Instruction::ReadPostfix(keep, id, row)),
            Task::Put(Instruction::ReadInfix(keep, id, row)),
            Task::Put(Instruction::Jump(head)),
            Task::Put(Instruction::Settle(keep, id, rank.saturating_add(1))),
        ])
    }
}

/// How many precedences these operators have.
fn rows_of(operators: &[Decl]) -> usize {
    let mut found = [false; 10];
    for operator in operators {
        if let Some(there) = found.get_mut(usize::from(operator.precedence())) {
            *there = true;
        }
    }
    let mut rows: usize = 0;
    for there in found {
        if there {
            rows = rows.saturating_add(1);
        }
    }
    rows
}
