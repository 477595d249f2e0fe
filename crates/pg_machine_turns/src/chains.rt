//! Chains: operands with separators between them, folded to the left or to the right.
//!
//! A left chain builds one tree at each link, so its forest is one tree, or that of the first operand.
//! In a right chain a link waits for all later ones: the chain keeps the indices where its trees begin, and builds
//! from the last one on when it ends.

ghost use Rattle.std.specs.Prelude.{◌≡◌, ◌<◌, ◌+◌, ◌-◌, ◌^◌, true, length, take, reverse, IfOk, OnOk};
ghost use Rattle.pg_machine_turns.specs.Tape.{tape_to_first, tape_to_separator, tape_to_operand, tape_ended, tape_linked, all_built, link_forest, link_waiting, link_left, end_tape_error, end_messages};
ghost use Rattle.pg_machine_turns.specs.View.{chain_of, links_of, on_lists, tape_of};
ghost use Rattle.pg_message_tape.specs.TapeErrors.{kept_at, merged_tape_error, merged_messages};
ghost use Rattle.pg_machine_turns.specs.declared.frame.Reply.TheVariants.{Succeeded};

use crate::frame::{Before, ChainFrame, Frame, LinksFrame, Marks, Mode, OperandFrame, Reply};
use crate::machine::Machine;
use pg_grammar_form::{ChainBuilder, Side};
use pg_grammar_value::TrailItem;
use pg_machine_lists::{Lists, RunForest, build_chain};
use pg_message_tape::{KeptError, TapeError};
use std::alloc::{AllocError, Global};

impl<'a> Machine<'a> {
    /// Handles an answer of the first operand: if it is ok, the first separator runs.
    #[inline(always)]
    pub(crate) fn hand_to_first(
        &mut self,
        alloc: Global,
        chain: ChainFrame<'a>,
        reply: Reply,
    ) -> Result<Mode, AllocError>
        ensures { IfOk result (λ mode. tape_of mode self.new ≡
            on_lists (tape_to_first (chain_of chain.entry) chain.entry.slot chain.entry.forest reply) self.old) }
    {
        let ChainFrame {
            side,
            used,
            operand,
            separator,
            slot,
            forest,
        } = chain;
        match reply {
            Reply::Succeeded {
                consumed,
                end,
                error,
            } => {
                let chain = ChainFrame {
                    side,
                    used,
                    operand,
                    separator,
                    slot,
                    forest,
                };
                self.begin_links(alloc, chain, consumed, end, error)
            }
            Reply::Failed { consumed, error } => {
                Ok(Mode::With(Reply::Failed { consumed, error }))
            }
            Reply::EmptyRound => Ok(Mode::With(Reply::EmptyRound)),
        }
    }

    /// Runs the first separator, after the first operand was ok.
    #[inline(always)]
    fn begin_links(
        &mut self,
        alloc: Global,
        chain: ChainFrame<'a>,
        consumed: bool,
        end: usize,
        error: TapeError,
    ) -> Result<Mode, AllocError>
        ensures { IfOk result (λ mode. tape_of mode self.new ≡
            on_lists (tape_to_first (chain_of chain.entry) chain.entry.slot chain.entry.forest (Succeeded consumed end error)) self.old) }
    {
        let marks = self.marks()?;
        let ChainFrame {
            side,
            used,
            operand,
            separator,
            slot,
            forest,
        } = chain;
        let links = LinksFrame {
            chain: ChainFrame {
                side,
                used,
                operand,
                separator,
                slot,
                forest,
            },
            count: 0,
            consumed,
            kept: self.lists.messages.kept(error),
            waiting: Vec::new(alloc),
            left: forest,
            start: end,
            marks,
        };
        let links = boxed(alloc, &mut self.spare_links, links)?;
        self.enter_part(Frame::Separator(links), separator, end)
    }

    /// Handles an answer of a separator: if it is ok, an operand must follow.
    #[inline(always)]
    pub(crate) fn hand_to_separator(
        &mut self,
        links: Box<LinksFrame<'a>>,
        reply: Reply,
    ) -> Result<Mode, AllocError>
        ensures { IfOk result (λ mode. tape_of mode self.new ≡
            on_lists (tape_to_separator (links_of links.entry.value) reply) self.old) }
    {
        match reply {
            Reply::Succeeded {
                consumed,
                end,
                error,
            } => {
                let kept = self.lists.messages.kept(error);
                let trees = self.lists.forest.len();
                let operand = links.chain.operand;
                let before = Before { consumed, kept };
                let frame = OperandFrame {
                    links,
                    before,
                    trees,
                };
                self.enter_part(Frame::Operand(frame), operand, end)
            }
            Reply::Failed { consumed, error } => { self.end_links(links, consumed, error) }
            Reply::EmptyRound => Ok(Mode::With(Reply::EmptyRound)),
        }
    }

    /// Handles an answer of an operand after a separator: if it is ok, the next separator runs, unless the link consumed
    /// nothing.
    #[inline(always)]
    pub(crate) fn hand_to_operand(
        &mut self,
        operand: OperandFrame<'a>,
        reply: Reply,
    ) -> Result<Mode, AllocError>
        requires { operand.links.value.count < 2 ^ 64 - 1 }
        ensures { IfOk result (λ mode. tape_of mode self.new ≡
            on_lists (tape_to_operand (links_of operand.entry.links.value) operand.entry.before operand.entry.trees reply) self.old) }
    {
        let OperandFrame {
            links,
            before,
            trees,
        } = operand;
        match reply {
            Reply::Succeeded {
                consumed,
                end,
                error,
            } => {
                let error = self.lists.error_after(before.kept, consumed, error)?;
                if before.consumed || consumed {
                    self.add_link(links, trees, end, error)
                } else {
                    Ok(Mode::Endless)
                }
            }
            Reply::Failed { consumed, error } => {
                let error = self.lists.error_after(before.kept, consumed, error)?;
                let consumed = before.consumed || consumed;
                self.end_links(links, consumed, error)
            }
            Reply::EmptyRound => Ok(Mode::With(Reply::EmptyRound)),
        }
    }

    /// Adds a link whose operand's trees begin at `trees`, and runs the next separator.
    #[inline(never)]
    fn add_link(
        &mut self,
        mut links: Box<LinksFrame<'a>>,
        trees: usize,
        end: usize,
        error: TapeError,
    ) -> Result<Mode, AllocError>
        requires { links.value.count < 2 ^ 64 - 1 }
        ensures { IfOk result (λ mode. tape_of mode self.new ≡
            tape_linked true (links_of links.entry.value) end trees (kept_at (length self.old.lists.messages) error)
            self.old.frames
            (link_forest links.entry.value.chain.side links.entry.value.chain.used.now.shape links.entry.value.left self.old.lists.forest)
            self.old.lists.trail.items self.old.lists.messages self.old.table) }
    {
        fold(&mut links, trees, &mut self.lists.forest)?;
        let kept = self.lists.messages.kept(error);
        count_link(&mut links, kept, end, self.marks()?);
        let separator = links.chain.separator;
        self.enter_part(Frame::Separator(links), separator, end)
    }

    /// Ends the chain after a link that failed; the next chain reuses the box of its links.
    #[inline(never)]
    fn end_links(
        &mut self,
        mut links: Box<LinksFrame<'a>>,
        consumed: bool,
        error: TapeError,
    ) -> Result<Mode, AllocError>
        ensures { IfOk result (λ mode. tape_of mode self.new ≡
            on_lists (tape_ended (links_of links.entry.value) consumed error) self.old) }
    {
        let mode = self.end_chain(&mut links, consumed, error)?;
        self.spare_links = Some(links);
        Ok(mode)
    }

    /// Ends the chain after a link that failed: it fails if the link consumed, and otherwise ends before the link.
    fn end_chain(
        &mut self,
        links: &mut LinksFrame<'a>,
        consumed: bool,
        error: TapeError,
    ) -> Result<Mode, AllocError>
        ensures { IfOk result (λ mode. tape_of mode self.new ≡
            on_lists (tape_ended (links_of links.old) consumed error) self.old) }
    {
        if consumed {
            return Ok(Mode::With(Reply::Failed { consumed, error }));
        }
        let error = end_error(&mut self.lists, links, error)?;
        self.cut(links.marks);
        let used = links.chain.used;
        build_waiting(used, &mut links.waiting, &mut self.lists.forest)?;
        self.lists
            .note(links.chain.slot, TrailItem::Rounds(links.count));
        Ok(Mode::With(Reply::Succeeded {
            consumed: links.consumed,
            end: links.start,
            error,
        }))
    }
}

/// The error of a chain that ends before a link that failed with this error.
fn end_error(
    lists: &mut Lists<'_>,
    links: &LinksFrame<'_>,
    error: TapeError,
) -> Result<TapeError, AllocError>
    ensures error { IfOk result (λ after. after ≡ merged_tape_error links.now.kept (end_tape_error (links_of links.now) error lists.old.messages)
        (end_messages (links_of links.now) error lists.old.messages)) }
    ensures forest { OnOk result (lists.new.forest ≡ lists.old.forest) }
    ensures trail { OnOk result (lists.new.trail ≡ lists.old.trail) }
    ensures messages { OnOk result (lists.new.messages ≡ merged_messages links.now.kept (end_tape_error (links_of links.now) error lists.old.messages)
        (end_messages (links_of links.now) error lists.old.messages)) }
{
    let failed = lists.messages.kept(error);
    let nothing = lists.no_messages_at(links.start);
    let error = lists.messages.merge(failed, nothing)?;
    lists.messages.merge(links.kept, error)
}

/// The links in a box: an ended chain's, if there is one.
fn boxed<'a>(
    alloc: Global,
    spare: &mut Option<Box<LinksFrame<'a>>>,
    links: LinksFrame<'a>,
) -> Result<Box<LinksFrame<'a>>, AllocError>
    ensures { IfOk result (λ boxed. links_of boxed.value ≡ links_of links.entry) }
{
    match spare.take() {
        Some(mut boxed) => {
            *boxed = links;
            Ok(boxed)
        }
        None => Ok(Box::new(alloc, links)?),
    }
}

/// Folds the trees of one more link in a left chain; in a right chain the left operand waits.
fn fold(links: &mut LinksFrame<'_>, trees: usize, forest: &mut RunForest) -> Result<(), AllocError>
    ensures links { OnOk result (links_of links.new ≡ record (links_of links.old) {
      waiting = link_waiting links.old.chain.side links.old.left (reverse links.old.waiting.items);
      left = link_left links.old.chain.side links.old.left trees;
    }) }
    ensures forest { OnOk result (forest.new ≡ link_forest links.old.chain.side links.old.chain.used.now.shape links.old.left forest.old) }
{
    match links.chain.side {
        Side::Left => build_chain(links.chain.used, links.left, forest),
        Side::Right => {
            let left = links.left;
            links.waiting.push(left)?;
            links.left = trees;
            Ok(())
        }
    }
}

/// Counts a link that consumed, with the error after it, the place where it ended, and the lengths of the lists there.
fn count_link(links: &mut LinksFrame<'_>, kept: KeptError, end: usize, marks: Marks)
    requires { links.old.count < 2 ^ 64 - 1 }
    ensures { links_of links.new ≡ record (links_of links.old) {
      count = links.old.count + 1;
      consumed = true;
      kept = kept;
      start = end;
      forest = marks.forest;
      trail = marks.trail;
      operators = marks.operators;
    } }
{
    links.count += 1;
    links.consumed = true;
    links.kept = kept;
    links.start = end;
    links.marks = marks;
}

/// Builds the trees after each of these indices into one, from the last index on.
fn build_waiting(
    used: &ChainBuilder,
    places: &mut Vec<usize>,
    forest: &mut RunForest,
) -> Result<(), AllocError>
    ensures { OnOk result (forest.new ≡ all_built used.now.shape (reverse places.old.items) forest.old) }
{
    while let Some(place) = places.pop() {
        build_chain(used, place, forest)?;
    }
    Ok(())
}
