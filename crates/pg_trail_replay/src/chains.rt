//! Chains: an operand, and then rounds of a separator and an operand, whose trees are folded from one side.

ghost use Rattle.std.specs.Prelude.{◌≡◌, IfOk, OnOk};
ghost use Rattle.pg_trail_replay.specs.Tasks.{on, told, with_links, inside_chain, chain_turn, links_turn, operand_turn, round_start, is_idle, linked_turn, fold_turn};
ghost use Rattle.pg_trail_replay.specs.View.{state_of, chain_of, start_of, loose_of};

use crate::looseness::{inside, is_steady};
use crate::replay_fault::Mismatch;
use crate::replayer::Replayer;
use crate::step::build;
use crate::task::{Chain, Halt, Looseness, RoundStart, RoundsTask, ShortTask, Task};
use pg_grammar_form::{ChainBuilder, Side};
use pg_grammar_value::TrailItem;
use pg_tree::Shape;
use std::alloc::AllocError;

impl<'a> Replayer<'a> {
    /// Takes the item that counts the rounds, and begins the first operand.
    pub(crate) fn begin_chain(&mut self, chain: &Chain<'a>) -> Result<Option<Halt>, AllocError>
        ensures { IfOk result (λ halt. told halt (state_of self.new) ≡ chain_turn (chain_of chain.now) self.old.rest.now (state_of self.old)) }
    {
        match self.rest.split_first() {
            Some((TrailItem::Rounds(left), rest)) => {
                let (left, trees) = (*left, self.forest.len());
                self.take_item(rest);
                let loose = self.loose;
                self.set_loose(inside_chain(chain, left, loose));
                let links = Task::Rounds(RoundsTask::Links {
                    chain: chain.copy(),
                    left,
                    trees,
                });
                self.go_on(&[
                    Task::Short(ShortTask::Settle(loose)),
                    links,
                    Task::Short(ShortTask::Node(chain.part)),
                ])
            }
            Some((TrailItem::Alt(_) | TrailItem::Ops(_), _)) | None => Ok(Some(Halt::Stopped(
                Mismatch::ItemDiffers,
            ))),
        }
    }

    /// A separator and its operand, and then the remaining rounds.
    pub(crate) fn links(
        &mut self,
        chain: &Chain<'a>,
        left: usize,
        trees: usize,
    ) -> Result<Option<Halt>, AllocError>
        ensures { IfOk result (λ halt. told halt (state_of self.new) ≡ links_turn (chain_of chain.now) left trees (state_of self.old)) }
    {
        if left == 0 {
            return Ok(None);
        }
        let operand = Task::Rounds(RoundsTask::Operand {
            chain: chain.copy(),
            left: left - 1,
            trees,
            from: self.round_start(),
        });
        self.go_on(&[operand, Task::Short(ShortTask::Node(chain.separator))])
    }

    /// The operand, and then folding and the remaining rounds.
    pub(crate) fn operand(
        &mut self,
        chain: &Chain<'a>,
        left: usize,
        trees: usize,
        from: RoundStart,
    ) -> Result<Option<Halt>, AllocError>
        ensures { IfOk result (λ halt. told halt (state_of self.new) ≡ operand_turn (chain_of chain.now) left trees (start_of from) (state_of self.old)) }
    {
        let linked = Task::Rounds(RoundsTask::Linked {
            chain: chain.copy(),
            left,
            trees,
            later: self.forest.len(),
            from,
        });
        self.go_on(&[linked, Task::Short(ShortTask::Node(chain.part))])
    }

    /// A round that begins here.
    fn round_start(&self) -> RoundStart
        ensures { start_of result ≡ round_start (state_of self.now) }
    {
        RoundStart {
            place: self.place,
            trees: self.forest.len(),
            items: self.rest.len(),
        }
    }

    /// Folding and the remaining rounds, after one that began at `from`. If that round consumed nothing and added nothing to the chain's tree,
    /// the others don't either, so they are skipped.
    pub(crate) fn linked(
        &mut self,
        chain: &Chain<'a>,
        left: usize,
        trees: usize,
        later: usize,
        from: RoundStart,
    ) -> Result<Option<Halt>, AllocError>
        ensures { IfOk result (λ halt. told halt (state_of self.new) ≡ linked_turn (chain_of chain.now) left trees later (start_of from) (state_of self.old)) }
    {
        if self.is_idle(&chain.used.shape, from) {
            return self.go_on(&[Task::Short(ShortTask::Fold {
                used: chain.used,
                trees,
            })]);
        }
        self.ask_again(from.place, from.trees, from.items, left)?;
        self.fold_and_link(chain, left, trees, later)
    }

    /// Whether a round that began at `from` consumed nothing, and added nothing to the chain's tree of this shape.
    fn is_idle(&self, shape: &Shape, from: RoundStart) -> bool
        ensures { result ≡ is_idle shape.now (start_of from) (state_of self.now) }
    {
        is_steady(shape, &self.loose) && self.is_unchanged(from.place, from.trees, from.items)
    }

    /// In a left chain folds the operand with all before it, and then runs the other rounds; in a right chain folds last, with all after it.
    fn fold_and_link(
        &mut self,
        chain: &Chain<'a>,
        left: usize,
        trees: usize,
        later: usize,
    ) -> Result<Option<Halt>, AllocError>
        ensures { IfOk result (λ halt. told halt (state_of self.new) ≡ on (with_links chain.now.side (chain_of chain.now) left trees later (state_of self.old))) }
    {
        let fold = Task::Short(ShortTask::Fold {
            used: chain.used,
            trees,
        });
        match chain.side {
            Side::Left => {
                let links = Task::Rounds(RoundsTask::Links {
                    chain: chain.copy(),
                    left,
                    trees,
                });
                self.go_on(&[links, fold])
            }
            Side::Right => {
                let links = Task::Rounds(RoundsTask::Links {
                    chain: chain.copy(),
                    left,
                    trees: later,
                });
                self.go_on(&[fold, links])
            }
        }
    }

    /// Builds the trees after the first `trees` into one.
    pub(crate) fn fold(
        &mut self,
        used: &ChainBuilder,
        trees: usize,
    ) -> Result<Option<Halt>, AllocError>
        ensures { IfOk result (λ halt. told halt (state_of self.new) ≡ fold_turn used.now trees (state_of self.old)) }
    {
        build(&used.shape, "", trees, &mut self.forest)?;
        Ok(None)
    }
}

/// The looseness of the trees in a chain with this many rounds, given the looseness of the chain's tree.
fn inside_chain<'a>(chain: &Chain<'a>, left: usize, loose: Looseness<'a>) -> Looseness<'a>
    ensures { loose_of result ≡ inside_chain (chain_of chain.now) left (loose_of loose.entry) }
{
    match left {
        0 => loose,
        _ => inside(&chain.used.shape, loose),
    }
}
