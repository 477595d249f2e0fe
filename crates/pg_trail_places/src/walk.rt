//! Replays a trail over a text, and records the stretches of the trees that it makes.

use crate::declared::parts_of_declaration;
use crate::derived::DerivedText;
use crate::single_characters::single_characters;
use crate::stretch::Stretch;
use crate::stretches::{Name, Stretches};
use pg_grammar_form::{Around, BuilderUse, ChainBuilder, Form, NodeId, OperatorBuilders};
use pg_grammar_value::{AppliedOperator, Fixity, Grammar};
use pg_text::Text;
use pg_trail_replay::{Closing, Looseness, Replayer, RoundsTask, ShortTask, Task};
use std::alloc::{AllocError, Global};

/// The stretch of each node and leaf in the forest to which the trail leads, each after its kids (ours). Nothing is claimed of them. The only error is that
/// memory runs out.
///
/// A leaf's is what was read for it, and that of a builder's node all that its part read. A tree of a chain or of an operator begins with its first operand,
/// or with the symbol before it, and ends with its last operand, or with the symbol behind it.
pub fn stretches_along(
    alloc: Global,
    derived: &DerivedText<'_>,
) -> Result<Vec<Stretch>, AllocError> {
    let grammar = derived.grammar;
    let mut replayer = Replayer::begin(alloc, grammar, derived.table, derived.trail)?;
    let mut walk = Walk {
        made: Stretches::new(alloc),
        begun: Vec::new(alloc),
        symbol_end: None,
    };
    let gone = walk.go_along(alloc, grammar, derived.text, &mut replayer);
    drop(replayer);
    gone?;
    let Walk { made, .. } = walk;
    Ok(made.kept())
}

/// A task that was done: the places before and after it, and how many trees there are then.
#[derive(Clone, Copy)]
struct Done {
    from: usize,
    to: usize,
    trees: usize,
}

/// The stretches of the trees so far; where chains, operands and prefix operators begin whose nodes aren't made yet, the newest last; and the end of the
/// symbol that was read last, if no operand came after it.
#[derive(Drop)]
struct Walk<'a> {
    made: Stretches<'a>,
    begun: Vec<usize>,
    symbol_end: Option<usize>,
}

impl<'a> Walk<'a> {
    /// Replays the whole trail.
    fn go_along(
        &mut self,
        alloc: Global,
        grammar: &'a Grammar,
        text: &Text,
        replayer: &mut Replayer<'a>,
    ) -> Result<(), AllocError> {
        for _ in 0..u64::MAX {
            if !self.go_on(alloc, grammar, text, replayer)? {
                break;
            }
        }
        Ok(())
    }

    /// Performs the next task, and says whether there was one. Where nothing of the trees reaches the result, as in `text`, none is recorded, and rounds of
    /// one character each are passed at once.
    fn go_on(
        &mut self,
        alloc: Global,
        grammar: &'a Grammar,
        text: &Text,
        replayer: &mut Replayer<'a>,
    ) -> Result<bool, AllocError> {
        let from = replayer.place;
        let Some(task) = replayer.tasks.pop() else {
            return Ok(false);
        };
        let is_dropped = is_dropped(&task, replayer.loose);
        if is_dropped && let Some(count) = single_characters(grammar, &task) {
            pass(replayer, count);
            return Ok(true);
        }
        if replayer.perform(alloc, grammar, text, &task)?.is_some() {
            return Ok(false);
        }
        if is_dropped {
            return Ok(true);
        }
        let done = Done {
            from,
            to: replayer.place,
            trees: replayer.forest.len(),
        };
        self.follow(grammar, text, &task, done)?;
        Ok(true)
    }

    /// Records a task that was done.
    fn follow(
        &mut self,
        grammar: &Grammar,
        text: &Text,
        task: &Task<'a>,
        done: Done,
    ) -> Result<(), AllocError> {
        match task {
            Task::Short(short) => self.follow_short(grammar, text, short, done),
            Task::Rounds(RoundsTask::Operand { .. }) => self.begin(done.from),
            Task::Close(closing) => self.close(closing, done),
            Task::Rounds(
                RoundsTask::MoreRounds { .. }
                | RoundsTask::Links { .. }
                | RoundsTask::Linked { .. },
            )
            | Task::Leave(_) => Ok(()),
        }
    }

    /// As `follow`, for a small task.
    fn follow_short(
        &mut self,
        grammar: &Grammar,
        text: &Text,
        task: &ShortTask<'a>,
        done: Done,
    ) -> Result<(), AllocError> {
        match task {
            ShortTask::Node(node) => self.enter(grammar, text, *node, done),
            ShortTask::Term(_, _) => {
                self.symbol_end = None;
                self.begin(done.from)
            }
            ShortTask::Symbol(operator) => self.read(operator, done),
            ShortTask::Fold { used, .. } => self.fold(used, done),
            ShortTask::Application { builders, operator } => self.apply(builders, operator, done),
            ShortTask::Unmark => {
                self.symbol_end = None;
                self.end();
                Ok(())
            }
            ShortTask::Settle(_) => {
                self.end();
                Ok(())
            }
            ShortTask::Parts(_) | ShortTask::Rounds { .. } => Ok(()),
        }
    }

    /// Records a node that was entered: chains and expressions begin there, and leaves have been read.
    fn enter(
        &mut self,
        grammar: &Grammar,
        text: &Text,
        node: NodeId,
        done: Done,
    ) -> Result<(), AllocError> {
        match grammar.nodes().get(node.index()) {
            Some(Form::Chain(_, _, _, _) | Form::Expression(_, _)) => self.begin(done.from),
            Some(Form::Leaf(leaf)) if leaf.is_declaration() => self.declare(grammar, text, done),
            Some(
                Form::Leaf(_)
                | Form::Seq(_)
                | Form::Choice(_)
                | Form::Many(_)
                | Form::Rule(_)
                | Form::Around(_, _),
            ) => self.leaf_if_made(done),
            None => Ok(()),
        }
    }

    /// Records a leaf, if there is one more tree.
    fn leaf_if_made(&mut self, done: Done) -> Result<(), AllocError> {
        if done.trees > self.made.len() {
            self.made.push_leaf(between(done.from, done.to)?)
        } else {
            Ok(())
        }
    }

    /// Records a declaration that was read.
    fn declare(&mut self, grammar: &Grammar, text: &Text, done: Done) -> Result<(), AllocError> {
        let parts = parts_of_declaration(grammar, text, done.from);
        let before = self.made.len();
        self.made.push_leaf(between(done.from, parts.keyword_end)?)?;
        self.made
            .push_leaf(between(parts.digit, parts.digit.saturating_add(1))?)?;
        self.made
            .push_leaf(between(parts.symbol, parts.symbol_end)?)?;
        let whole = between(done.from, done.to)?;
        self.made.close(before, Name::Text("declare"), whole)
    }

    /// Records that something begins for which a node may be made.
    fn begin(&mut self, place: usize) -> Result<(), AllocError> {
        self.begun.push(place)?;
        Ok(())
    }

    /// Removes the newest beginning, since it has ended.
    fn end(&mut self) {
        let _place = self.begun.pop();
    }

    /// The newest beginning of something that hasn't ended.
    fn begun(&self) -> usize {
        self.begun.last().copied().unwrap_or(0)
    }

    /// Records an operator's symbol that was read, with the gap after it.
    fn read(&mut self, operator: &AppliedOperator, done: Done) -> Result<(), AllocError> {
        self.symbol_end = Some(done.from.saturating_add(operator.symbol.len()));
        match operator.fixity {
            Fixity::Prefix => self.begin(done.from),
            Fixity::Infix | Fixity::Postfix => Ok(()),
        }
    }

    /// Ends the last operand of a chain, and joins it with the operand before it into one tree.
    fn fold(&mut self, used: &'a ChainBuilder, done: Done) -> Result<(), AllocError> {
        self.end();
        let whole = between(self.begun(), done.to)?;
        self.made.build(
            &used.shape,
            Name::Text(""),
            done.trees.saturating_sub(1),
            whole,
        )
    }

    /// Records an operator that was applied. The operand after it, if there is one, ends. What was read last is that operand or a symbol.
    fn apply(
        &mut self,
        builders: &'a OperatorBuilders,
        operator: &'a AppliedOperator,
        done: Done,
    ) -> Result<(), AllocError> {
        match operator.fixity {
            Fixity::Prefix | Fixity::Infix => self.end(),
            Fixity::Postfix => {}
        }
        let used = builder_on(operator.fixity, builders);
        let symbol = Name::Symbol(operator.symbol.as_slice());
        let whole = between(self.begun(), self.symbol_end.unwrap_or(done.to))?;
        self.made
            .build(&used.shape, symbol, done.trees.saturating_sub(1), whole)
    }

    /// Records the result of a form: nothing, if there are no more trees than before it.
    fn close(&mut self, closing: &Closing<'a>, done: Done) -> Result<(), AllocError> {
        let before = closing.from.trees as usize;
        if done.trees <= before {
            self.made.cut(before);
            return Ok(());
        }
        let whole = between(closing.from.place as usize, done.to)?;
        match closing.around {
            Around::Text => {
                self.made.cut(before);
                self.made.push_leaf(whole)
            }
            Around::Build(used, symbol) => {
                let symbol = Name::Text(symbol.as_str());
                self.made.build(&used.shape, symbol, before, whole)
            }
            Around::Try | Around::Skip | Around::Label(_) | Around::Local => Ok(()),
        }
    }
}

/// Goes on behind so many characters, of which nothing is made.
fn pass(replayer: &mut Replayer<'_>, count: usize) {
    if count > 0 {
        replayer.place = replayer.place.saturating_add(count);
        replayer.entered.clear();
    }
}

/// Whether nothing of the trees that the task makes reaches the result, where the looseness before it is this.
fn is_dropped(task: &Task<'_>, loose: Looseness<'_>) -> bool {
    let loose = match task {
        Task::Close(closing) => closing.loose,
        Task::Short(_) | Task::Rounds(_) | Task::Leave(_) => loose,
    };
    match loose {
        Looseness::Dropped => true,
        Looseness::Tight | Looseness::Apart(_) | Looseness::OnlyText => false,
    }
}

/// The stretch between two places of the text.
fn between(start: usize, end: usize) -> Result<Stretch, AllocError> {
    match Stretch::between(start, end) {
        Some(stretch) => Ok(stretch),
        None => Err(AllocError),
    }
}

/// The builder of operators on this side of their operands.
fn builder_on(fixity: Fixity, builders: &OperatorBuilders) -> &BuilderUse {
    match fixity {
        Fixity::Prefix => &builders.prefix,
        Fixity::Infix => &builders.infix,
        Fixity::Postfix => &builders.postfix,
    }
}
