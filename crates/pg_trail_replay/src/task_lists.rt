//! The remaining tasks, each kind in a list of its own.
//!
//! A text may nest as deep as it is long, and each depth leaves a few tasks behind. So a task takes one byte and the space of its own
//! kind. `specs/View.antt` defines the order of the tasks, on which the replayer relies.

ghost use Rattle.std.specs.Prelude.{◌≡◌, ◌∷◌, [], reverse, None, IfSome, OnOk};
ghost use Rattle.pg_trail_replay.specs.View.{task_of, tasks_on, tasks_in, first_by, others, short_of, rounds_of, closing_of, leaving_of};

use crate::task::{Closing, Leaving, RoundsTask, ShortTask, Task};
use std::alloc::{AllocError, Global};
use std::slice::from_ref;

/// The list in which a task stands.
#[derive(Clone, Copy)]
pub enum TaskKind {
    Short,
    Rounds,
    Close,
    Leave,
}

/// Tasks, of which the last is the next: the kind of each, and the lists of the kinds. If the list of a kind is empty, which never happens, an end of an
/// operand stands for the missing task.
#[derive(Drop)]
pub struct TaskLists<'a> {
    pub kinds: Vec<TaskKind>,
    pub short: Vec<ShortTask<'a>>,
    pub rounds: Vec<RoundsTask<'a>>,
    pub closings: Vec<Closing<'a>>,
    pub leavings: Vec<Leaving>,
}

impl<'a> TaskLists<'a> {
    /// No tasks. It allocates no memory.
    pub(crate) fn new(alloc: Global) -> TaskLists<'a>
        ensures { tasks_in result ≡ [] }
    {
        TaskLists {
            kinds: Vec::new(alloc),
            short: Vec::new(alloc),
            rounds: Vec::new(alloc),
            closings: Vec::new(alloc),
            leavings: Vec::new(alloc),
        }
    }

    /// Pushes the next task. The only error is that memory ran out; the tasks are then unspecified.
    pub(crate) fn push(&mut self, task: &Task<'a>) -> Result<(), AllocError>
        ensures { OnOk result (tasks_in self.new ≡ task_of task.now ∷ tasks_in self.old) }
    {
        match task {
            Task::Short(short) => self.push_short(short),
            Task::Rounds(rounds) => self.push_rounds(rounds),
            Task::Close(closing) => self.push_closing(closing),
            Task::Leave(leaving) => self.push_leaving(leaving),
        }
    }

    /// Pushes tasks, of which the last is the next.
    pub(crate) fn push_all(&mut self, tasks: &[Task<'a>]) -> Result<(), AllocError>
        ensures { OnOk result (tasks_in self.new ≡ tasks_on (tasks_in self.old) tasks.now) }
    {
        for task in tasks {
            self.push(task)?;
        }
        Ok(())
    }

    /// Pops the next task, if there is one.
    #[tactic(auto, using(crate::proofs::Stack::short_popped, crate::proofs::Stack::rounds_popped, crate::proofs::Stack::closing_popped, crate::proofs::Stack::leaving_popped))]
    pub fn pop(&mut self) -> Option<Task<'a>>
        ensures task { IfSome result (λ task. tasks_in self.old ≡ task_of task ∷ tasks_in self.new) }
        ensures old { result ≡ None → tasks_in self.old ≡ [] }
        ensures new { result ≡ None → tasks_in self.new ≡ [] }
    {
        match self.kinds.pop() {
            None => None,
            Some(TaskKind::Short) => Some(newest_short(&mut self.short)),
            Some(TaskKind::Rounds) => Some(newest_rounds(&mut self.rounds)),
            Some(TaskKind::Close) => Some(newest_closing(&mut self.closings)),
            Some(TaskKind::Leave) => Some(newest_leaving(&mut self.leavings)),
        }
    }

    #[tactic(auto, using(crate::proofs::Stack::short_pushed))]
    fn push_short(&mut self, short: &ShortTask<'a>) -> Result<(), AllocError>
        ensures { OnOk result (tasks_in self.new ≡ short_of short.now ∷ tasks_in self.old) }
    {
        self.kinds.push(TaskKind::Short)?;
        self.short.extend_from_slice(from_ref(short))
    }

    #[tactic(auto, using(crate::proofs::Stack::rounds_pushed))]
    fn push_rounds(&mut self, rounds: &RoundsTask<'a>) -> Result<(), AllocError>
        ensures { OnOk result (tasks_in self.new ≡ rounds_of rounds.now ∷ tasks_in self.old) }
    {
        self.kinds.push(TaskKind::Rounds)?;
        self.rounds.extend_from_slice(from_ref(rounds))
    }

    #[tactic(auto, using(crate::proofs::Stack::closing_pushed))]
    fn push_closing(&mut self, closing: &Closing<'a>) -> Result<(), AllocError>
        ensures { OnOk result (tasks_in self.new ≡ closing_of closing.now ∷ tasks_in self.old) }
    {
        self.kinds.push(TaskKind::Close)?;
        self.closings.extend_from_slice(from_ref(closing))
    }

    #[tactic(auto, using(crate::proofs::Stack::leaving_pushed))]
    fn push_leaving(&mut self, leaving: &Leaving) -> Result<(), AllocError>
        ensures { OnOk result (tasks_in self.new ≡ leaving_of leaving.now ∷ tasks_in self.old) }
    {
        self.kinds.push(TaskKind::Leave)?;
        self.leavings.extend_from_slice(from_ref(leaving))
    }
}

/// Pops the newest small task.
#[tactic(auto, using(crate::proofs::Stack::first_taken, crate::proofs::Stack::rest_taken))]
fn newest_short<'a>(short: &mut Vec<ShortTask<'a>>) -> Task<'a>
    ensures task { task_of result ≡ first_by short_of (reverse short.old.items) }
    ensures left { reverse short.new.items ≡ others (reverse short.old.items) }
{
    match short.pop() {
        Some(task) => Task::Short(task),
        None => Task::Short(ShortTask::Unmark),
    }
}

/// Pops the newest task about rounds.
#[tactic(auto, using(crate::proofs::Stack::first_taken, crate::proofs::Stack::rest_taken))]
fn newest_rounds<'a>(rounds: &mut Vec<RoundsTask<'a>>) -> Task<'a>
    ensures task { task_of result ≡ first_by rounds_of (reverse rounds.old.items) }
    ensures left { reverse rounds.new.items ≡ others (reverse rounds.old.items) }
{
    match rounds.pop() {
        Some(task) => Task::Rounds(task),
        None => Task::Short(ShortTask::Unmark),
    }
}

/// Pops the newest task that closes a form.
#[tactic(auto, using(crate::proofs::Stack::first_taken, crate::proofs::Stack::rest_taken))]
fn newest_closing<'a>(closings: &mut Vec<Closing<'a>>) -> Task<'a>
    ensures task { task_of result ≡ first_by closing_of (reverse closings.old.items) }
    ensures left { reverse closings.new.items ≡ others (reverse closings.old.items) }
{
    match closings.pop() {
        Some(task) => Task::Close(task),
        None => Task::Short(ShortTask::Unmark),
    }
}

/// Pops the newest task that ends a rule.
#[tactic(auto, using(crate::proofs::Stack::first_taken, crate::proofs::Stack::rest_taken))]
fn newest_leaving<'a>(leavings: &mut Vec<Leaving>) -> Task<'a>
    ensures task { task_of result ≡ first_by leaving_of (reverse leavings.old.items) }
    ensures left { reverse leavings.new.items ≡ others (reverse leavings.old.items) }
{
    match leavings.pop() {
        Some(task) => Task::Leave(task),
        None => Task::Short(ShortTask::Unmark),
    }
}
