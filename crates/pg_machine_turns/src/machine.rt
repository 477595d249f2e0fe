//! The machine's lists and its table, and how frames keep, cut and join parts of them.

ghost use Rattle.std.specs.Prelude.{◌≡◌, ◌∷◌, ◌++◌, [], length, take, IfOk, OnOk};
ghost use Rattle.pg_table.specs.Tables.{first_operators};
ghost use Rattle.pg_grammar_form.specs.declared.form.Around.TheVariants.{Skip};
ghost use Rattle.pg_machine_lists.specs.RunTrees.{no_run_trees, tree_count, first_trees, with_hiding};
ghost use Rattle.pg_machine_turns.specs.Tape.{on_around};
ghost use Rattle.pg_machine_turns.specs.View.{frame_of};

use crate::frame::{AroundFrame, Frame, LinksFrame, Marks};
use crate::frames::Frames;
use pg_grammar_form::Around;
use pg_grammar_value::TrailItem;
use pg_language_operators::InForce;
use pg_machine_lists::Lists;
use pg_table::Table;
use std::alloc::{AllocError, Global};
use std::rc::Rc;

/// The frames and the lists of a run, and the operator table in force. The topmost frame is last.
#[derive(Drop)]
pub struct Machine<'a> {
    pub frames: Frames<'a>,
    pub lists: Lists<'a>,
    pub table: Table,
    /// The box of an ended chain's links, for the next chain.
    pub(crate) spare_links: Option<Box<LinksFrame<'a>>>,
    /// The operators of the table under which the last expression began, prepared for its rows.
    pub(crate) in_force: Option<Rc<InForce>>,
}

impl<'a> Machine<'a> {
    /// A machine with this table in which nothing runs. It allocates no memory.
    pub fn new(alloc: Global, table: Table) -> Machine<'a>
        ensures frames { result.frames ≡ [] }
        ensures forest { result.lists.forest ≡ no_run_trees }
        ensures trail { result.lists.trail.items ≡ [] }
        ensures messages { result.lists.messages ≡ [] }
        ensures table { result.table ≡ table }
    {
        Machine {
            frames: Frames::new(alloc),
            lists: Lists::new(alloc),
            table,
            spare_links: None,
            in_force: None,
        }
    }

    /// A machine with this table in which a `skip` waits for its part, so that what runs makes no trees.
    pub fn discarding(
        alloc: Global,
        table: Table,
        skip: &'a Around,
    ) -> Result<Machine<'a>, AllocError>
        requires { skip.now ≡ Skip }
        ensures frames { IfOk result (λ machine. machine.frames ≡ on_around Skip 0 0 (length table.operators) ∷ []) }
        ensures forest { IfOk result (λ machine. machine.lists.forest ≡ with_hiding no_run_trees) }
        ensures trail { IfOk result (λ machine. machine.lists.trail.items ≡ []) }
        ensures messages { IfOk result (λ machine. machine.lists.messages ≡ []) }
        ensures table { IfOk result (λ machine. machine.table ≡ table) }
    {
        let operators = table.operators().len();
        let mut machine = Machine::new(alloc, table);
        machine.lists.forest.hide()?;
        machine.push(Frame::Around(AroundFrame {
            around: skip,
            start: 0,
            forest: 0,
            operators,
        }))?;
        Ok(machine)
    }

    /// Pushes a frame.
    #[inline(always)]
    pub(crate) fn push(&mut self, frame: Frame<'a>) -> Result<(), AllocError>
        ensures frames { OnOk result (self.new.frames ≡ frame_of frame.entry ∷ self.old.frames) }
        ensures forest { OnOk result (self.new.lists.forest ≡ self.old.lists.forest) }
        ensures trail { OnOk result (self.new.lists.trail.items ≡ self.old.lists.trail.items) }
        ensures messages { OnOk result (self.new.lists.messages ≡ self.old.lists.messages) }
        ensures table { OnOk result (self.new.table ≡ self.old.table) }
    {
        self.frames.push(frame)
    }

    /// The numbers of trees, items and operators. The only error is that there are too many items to count.
    #[inline(always)]
    pub(crate) fn marks(&self) -> Result<Marks, AllocError>
        ensures forest { IfOk result (λ marks. marks.forest ≡ tree_count self.now.lists.forest) }
        ensures trail { IfOk result (λ marks. marks.trail ≡ length self.now.lists.trail.items) }
        ensures operators { IfOk result (λ marks. marks.operators ≡ length self.now.table.operators) }
    {
        Ok(Marks {
            forest: self.lists.forest.len(),
            trail: counted(self.lists.trail.len())?,
            operators: counted(self.table.operators().len())?,
        })
    }

    /// Cuts trees, items and operators back to the marks.
    #[inline(always)]
    pub(crate) fn cut(&mut self, marks: Marks)
        ensures frames { self.new.frames ≡ self.old.frames }
        ensures forest { self.new.lists.forest ≡ first_trees marks.forest self.old.lists.forest }
        ensures trail { self.new.lists.trail.items ≡ take marks.trail self.old.lists.trail.items }
        ensures messages { self.new.lists.messages ≡ self.old.lists.messages }
        ensures table { self.new.table ≡ first_operators marks.operators self.old.table }
    {
        self.lists.forest.cut(marks.forest);
        self.lists.trail.truncate(marks.trail as usize);
        // There are seldom more.
        if (marks.operators as usize) < self.table.operators().len() {
            self.table.cut(marks.operators as usize);
        }
    }

    /// Appends an item to the trail.
    #[inline(always)]
    pub(crate) fn push_item(&mut self, item: TrailItem) -> Result<(), AllocError>
        ensures frames { OnOk result (self.new.frames ≡ self.old.frames) }
        ensures forest { OnOk result (self.new.lists.forest ≡ self.old.lists.forest) }
        ensures trail { OnOk result (self.new.lists.trail.items ≡ self.old.lists.trail.items ++ item ∷ []) }
        ensures messages { OnOk result (self.new.lists.messages ≡ self.old.lists.messages) }
        ensures table { OnOk result (self.new.table ≡ self.old.table) }
    {
        self.lists.trail.reserve(1)?;
        self.lists.trail.push_reserved(item);
        Ok(())
    }
}

/// The number in 32 bits. The only error is that it doesn't fit; memory can't hold that many items.
#[inline(always)]
pub(crate) fn counted(number: usize) -> Result<u32, AllocError>
    ensures { IfOk result (λ count. count ≡ number) }
{
    if number > u32::MAX as usize {
        return Err(AllocError);
    }
    Ok(number as u32)
}
