//! Code while it is laid out: instructions whose targets are labels, and the alternatives of tables.

use crate::instruction::{Instruction, Keep, Stretch};
use crate::lay_needs::Needs;
use pg_grammar_form::NodeId;
use pg_grammar_value::Grammar;
use std::alloc::{AllocError, Global};

/// The label of the instruction that fails.
pub(crate) const FAIL: usize = 1;

/// What is still to be laid out.
#[derive(Clone, Copy)]
pub(crate) enum Task {
    /// The code of a node.
    Node(Keep, NodeId),
    /// The body of a rule, from this label on.
    Body(Keep, NodeId, usize),
    /// An instruction.
    Put(Instruction),
    /// What comes next has this label.
    Here(usize),
    /// The stretch of a node that began there ends here.
    Ends(Keep, NodeId, usize),
}

/// An alternative of a table, or the round of a loop.
#[derive(Clone, Copy)]
pub(crate) struct Way {
    /// The node by which it is chosen.
    pub(crate) node: NodeId,
    /// Whether it is the last one of its choice.
    pub(crate) is_last: bool,
    /// Where to go on if it and all after it fail at once.
    pub(crate) otherwise: usize,
    /// Where it is gone into.
    pub(crate) plain: Option<usize>,
    /// Where it is tried.
    pub(crate) marked: Option<usize>,
    /// Whether it is a round, which is tried where it is empty.
    pub(crate) is_round: bool,
    /// The table of it and those after it, if there is one.
    pub(crate) table: Option<usize>,
    /// How many nodes that table counts besides.
    pub(crate) counted: usize,
}

/// Where the code of a rule's body is, if it is laid out.
#[derive(Clone, Copy)]
pub(crate) struct Bodies {
    kept: Option<usize>,
    hidden: Option<usize>,
}

/// Code while it is laid out. In place of places its instructions have labels.
#[derive(Drop)]
pub(crate) struct Laying<'g> {
    pub(crate) grammar: &'g Grammar,
    pub(crate) needs: &'g [Needs],
    pub(crate) code: Vec<Instruction>,
    pub(crate) stretches: Vec<Option<Stretch>>,
    /// The place of each label.
    pub(crate) labels: Vec<usize>,
    /// The alternatives of each choice from the last to the first.
    pub(crate) ways: Vec<Way>,
    /// How many tables there are.
    pub(crate) tables: usize,
    bodies: Vec<Bodies>,
    tasks: Vec<Task>,
    waiting: Vec<Task>,
    /// Whether something is in the grammar that isn't laid out.
    pub(crate) gives_up: bool,
}

impl<'g> Laying<'g> {
    /// Before anything is laid out.
    pub(crate) fn new(
        alloc: Global,
        grammar: &'g Grammar,
        needs: &'g [Needs],
    ) -> Result<Laying<'g>, AllocError> {
        let none = Bodies {
            kept: None,
            hidden: None,
        };
        let bodies = vec![in alloc; none; grammar.rules().len()]?;
        Ok(Laying {
            grammar,
            needs,
            code: Vec::new(alloc),
            stretches: Vec::new(alloc),
            labels: Vec::new(alloc),
            ways: Vec::new(alloc),
            tables: 0,
            bodies,
            tasks: Vec::new(alloc),
            waiting: Vec::new(alloc),
            gives_up: false,
        })
    }

    /// Puts an instruction.
    pub(crate) fn put(&mut self, instruction: Instruction) -> Result<(), AllocError> {
        self.stretches.push(None)?;
        self.code.push(instruction)?;
        Ok(())
    }

    /// A new label.
    pub(crate) fn label(&mut self) -> Result<usize, AllocError> {
        let label = self.labels.len();
        self.labels.push(0)?;
        Ok(label)
    }

    /// What comes next has the label.
    pub(crate) fn set(&mut self, label: usize) {
        let place = self.code.len();
        if let Some(found) = self.labels.get_mut(label) {
            *found = place;
        }
    }

    /// The stretch of the node that began there ends here.
    pub(crate) fn note(&mut self, keep: Keep, node: NodeId, begin: usize) {
        let end = self.code.len();
        if let Some(found) = self.stretches.get_mut(begin) {
            *found = Some(Stretch { keep, node, end });
        }
    }

    /// A new table, of the way that was added last and those after it.
    pub(crate) fn table(&mut self, counted: usize) -> usize {
        let table = self.tables;
        if let Some(way) = self.ways.last_mut() {
            way.table = Some(table);
            way.counted = counted;
        }
        self.tables = table.saturating_add(1);
        table
    }

    /// Puts these tasks before all others.
    pub(crate) fn to_do(&mut self, tasks: &[Task]) -> Result<(), AllocError> {
        for task in tasks.iter().rev() {
            self.tasks.push(*task)?;
        }
        Ok(())
    }

    /// The task that comes next.
    pub(crate) fn next_task(&mut self) -> Option<Task> {
        match self.tasks.pop() {
            Some(task) => Some(task),
            None => self.waiting.pop(),
        }
    }

    /// The label of a rule's body, which is laid out some time.
    pub(crate) fn body(
        &mut self,
        keep: Keep,
        rule: usize,
        body: NodeId,
    ) -> Result<usize, AllocError> {
        match self.label_of(keep, rule) {
            Some(label) => Ok(label),
            None => self.new_body(keep, rule, body),
        }
    }

    /// The label of a rule's body, if there is one.
    fn label_of(&self, keep: Keep, rule: usize) -> Option<usize> {
        let bodies = self.bodies.get(rule)?;
        match keep {
            Keep::Kept => bodies.kept,
            Keep::Hidden => bodies.hidden,
        }
    }

    /// A label for a rule's body.
    fn new_body(&mut self, keep: Keep, rule: usize, body: NodeId) -> Result<usize, AllocError> {
        let label = self.label()?;
        if let Some(bodies) = self.bodies.get_mut(rule) {
            match keep {
                Keep::Kept => bodies.kept = Some(label),
                Keep::Hidden => bodies.hidden = Some(label),
            }
        }
        self.waiting.push(Task::Body(keep, body, label))?;
        Ok(label)
    }
}
