//! Drafts: texts together with the choices that were made on the way. A draft isn't known to be a derivation; other crates check that.
//!
//! The grammar is walked from the body of the start rule with a stack of tasks. Along the way to a node there is no choice, at that node the target says what
//! happens, and everywhere else the cheapest text is taken. A guide is a wished-for beginning: once its first character is in the text, what comes after
//! follows the rest of it as long as it can. A failed allocation is noted where it happens and reported at the end, so that each step has one way out.

use crate::basis::Basis;
use crate::guide::Fronts;
use crate::random::Random;
use crate::shortest::Costs;
use crate::target::{Pick, Target, Task, Want};
use crate::ways::Step;
use pg_class::Class;
use pg_grammar_form::NodeId;
use pg_table::Table;
use std::alloc::{AllocError, Global};

/// The most tasks that a draft performs.
const MOST_TASKS: usize = 60_000;
/// The most characters of a draft.
const MOST_CHARACTERS: usize = 1_024;
/// The most places where a draft is varied.
const MOST_CHANGES: usize = 24;

/// What all drafts of a grammar share.
#[derive(Clone, Copy)]
pub struct Field<'g> {
    /// The grammar, with what its texts cost.
    pub basis: &'g Basis<'g>,
    /// The costs of texts that begin with a character of a guide.
    pub fronts: &'g Fronts,
    /// The operator table.
    pub table: &'g Table,
}

impl<'g> Field<'g> {
    /// Puts the parts together.
    pub fn of(basis: &'g Basis<'g>, fronts: &'g Fronts, table: &'g Table) -> Field<'g> {
        Field {
            basis,
            fronts,
            table,
        }
    }
}

/// What a draft is to be.
#[derive(Clone, Copy)]
pub struct Plan<'g> {
    /// The way that the draft follows.
    pub way: &'g [Step],
    /// What happens at the end of the way.
    pub target: Target,
    /// What the text should begin with, from where the guide begins.
    pub guide: &'g [char],
    /// Whether to put a space where a word or a key ends.
    pub spaced: bool,
    /// The seed of its variations; 0 for none.
    pub seed: u64,
}

/// A text, and the choices that led to it.
#[derive(Drop)]
pub struct Draft<'g> {
    pub(crate) field: Field<'g>,
    pub(crate) plan: Plan<'g>,
    /// The characters.
    pub text: Vec<char>,
    /// The choices, in the order of the derivation.
    pub picks: Vec<Pick>,
    tasks: Vec<Task>,
    /// How many characters were put since the guide began.
    pub(crate) taken: usize,
    /// Whether the guide is followed.
    pub(crate) guided: bool,
    /// Characters that shouldn't come next.
    pub(crate) excluded: Option<&'g Class>,
    pub(crate) random: Random,
    /// In how many more places it may be varied.
    changes: usize,
    /// How many tasks were done before the last.
    pub done: usize,
    /// Whether it was finished.
    pub whole: bool,
    /// Whether memory ran out.
    starved: bool,
}

/// Drafts a text by the plan, with two tasks to begin with. Fails where memory runs out.
pub fn make_draft<'g>(
    alloc: Global,
    field: Field<'g>,
    plan: Plan<'g>,
    first: Task,
    second: Task,
) -> Result<Draft<'g>, AllocError> {
    let mut draft = Draft::new(alloc, field, plan);
    draft.to_do(second);
    draft.to_do(first);
    draft.perform_all();
    if draft.starved {
        Err(AllocError)
    } else {
        Ok(draft)
    }
}

impl<'g> Draft<'g> {
    /// An empty draft.
    fn new(alloc: Global, field: Field<'g>, plan: Plan<'g>) -> Draft<'g> {
        let changes = if plan.seed == 0 { 0 } else { MOST_CHANGES };
        Draft {
            field,
            plan,
            text: Vec::new(alloc),
            picks: Vec::new(alloc),
            tasks: Vec::new(alloc),
            taken: 0,
            guided: false,
            excluded: None,
            random: Random::new(plan.seed),
            changes,
            done: 0,
            whole: true,
            starved: false,
        }
    }

    /// Performs the tasks, the last one first.
    fn perform_all(&mut self) {
        for number in 0..MOST_TASKS {
            let Some(task) = self.tasks.pop() else {
                return;
            };
            self.done = number;
            self.perform(task);
        }
        self.give_up();
    }

    /// Performs a task.
    fn perform(&mut self, task: Task) {
        match task {
            Task::Start => self.begin_guide(),
            Task::Node(node, want) => self.enter(node, want),
            Task::Step(number) => self.step(number),
            Task::More(part, pick) => self.more(part, pick),
            Task::Exclude(node) => self.exclude(node),
            Task::Symbol(number) => self.symbol(number),
        }
    }

    /// Ends the draft, unfinished.
    pub(crate) fn give_up(&mut self) {
        self.tasks.clear();
        self.whole = false;
    }

    /// Makes a task the next one.
    pub(crate) fn to_do(&mut self, task: Task) {
        if self.tasks.push(task).is_err() {
            self.starved = true;
        }
    }

    /// Makes the node's text the next task.
    pub(crate) fn want(&mut self, node: NodeId, want: Want) {
        self.to_do(Task::Node(node, want));
    }

    /// As `want`, and begins the guide there if the text is to follow it.
    pub(crate) fn want_first(&mut self, node: NodeId, want: Want) {
        self.want(node, want);
        if matches!(want, Want::Guide) {
            self.to_do(Task::Start);
        }
    }

    /// Makes the texts of these nodes, in order, the next tasks.
    pub(crate) fn want_each(&mut self, nodes: &[NodeId], want: Want) {
        for node in nodes.iter().rev() {
            self.want(*node, want);
        }
    }

    /// Records a choice.
    pub(crate) fn pick(&mut self, pick: Pick) {
        if self.picks.push(pick).is_err() {
            self.starved = true;
        }
    }

    /// Begins the guide.
    pub(crate) fn begin_guide(&mut self) {
        self.taken = 0;
        self.guided = !self.plan.guide.is_empty();
    }

    /// The next character of the guide, while it is followed.
    pub(crate) fn next_wish(&self) -> Option<char> {
        if self.guided {
            self.plan.guide.get(self.taken).copied()
        } else {
            None
        }
    }

    /// Adds a character to the text.
    pub(crate) fn put(&mut self, c: char) {
        if self.text.len() >= MOST_CHARACTERS {
            self.give_up();
            return;
        }
        self.guided = self.next_wish() == Some(c);
        self.taken = self.taken.saturating_add(1);
        self.excluded = None;
        if self.text.push(c).is_err() {
            self.starved = true;
        }
    }

    /// Adds characters to the text.
    pub(crate) fn put_all(&mut self, characters: &[char]) {
        for c in characters {
            self.put(*c);
        }
    }

    /// Whether to vary the draft here: one time in three.
    pub(crate) fn varies(&mut self) -> bool {
        if self.changes == 0 || self.random.below(3) != 0 {
            return false;
        }
        self.changes = self.changes.saturating_sub(1);
        true
    }

    /// The costs of the texts wanted, if they have to begin with a character.
    pub(crate) fn leading(&self, want: Want) -> Option<&'g Costs> {
        let basis = self.field.basis;
        match want {
            Want::Any | Want::Nothing => None,
            Want::Some => Some(&basis.some),
            Want::Guide => self.field.fronts.of(self.next_wish()?),
            Want::Space => self.field.fronts.of(' '),
        }
    }

    /// The costs of the texts wanted, if they are known.
    pub(crate) fn costs(&self, want: Want) -> Option<&'g Costs> {
        let basis = self.field.basis;
        match want {
            Want::Any => Some(&basis.plain.any),
            Want::Nothing => Some(&basis.plain.nothing),
            Want::Some | Want::Guide | Want::Space => self.leading(want),
        }
    }

    /// Whether the node has a text of the kind wanted.
    pub(crate) fn can(&self, node: NodeId, want: Want) -> bool {
        match self.costs(want) {
            Some(costs) => costs.has(node),
            None => false,
        }
    }
}
