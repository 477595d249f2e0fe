//! The nodes that are open, with the numbers of their kids that are left.
//!
//! Going back over the steps, a node is open from its own step to that of its first kid. Each step looks at the innermost one, which is kept apart.

ghost use Rattle.std.specs.Prelude.{◌≡◌, ◌↔◌, IsTrue, ◌++◌, ◌∷◌, ◌&&◌, ◌+◌, [], length, reverse, IfOk, OnOk};
ghost use Rattle.std.specs.Str.{bytes_eq};
ghost use Rattle.pg_tree.specs.Written.{braces, has_some};
ghost use Rattle.pg_tree_placed.specs.Named.{label_at};
ghost use Rattle.pg_tree_placed.specs.Written.{open_in, with_one_less, with_lifted, lifts, without_label, is_zero, is_full, finished, unfinished, still_later};

use crate::labels::named;
use pg_tree::Label;
use std::alloc::{AllocError, Global};

/// The kids of an open node that are left.
#[derive(Clone, Copy)]
pub(crate) struct Around {
    /// How many are as they are: the last ones.
    pub(crate) plain: u32,
    /// How many before them are lifted, if they have the label.
    pub(crate) flat: u32,
    /// The number of that label.
    pub(crate) label: u32,
}

/// An open node, and how many of the nodes around it begin where it does: no kids of theirs are left. So of a chain to the left one node is kept.
#[derive(Clone, Copy)]
pub(crate) struct Open {
    pub(crate) node: Around,
    pub(crate) also: u32,
}

/// The nodes that are open. Where there is no innermost one, none is.
#[derive(Drop)]
pub(crate) struct Pending {
    pub(crate) top: Option<Open>,
    pub(crate) outer: Vec<Open>,
}

impl Pending {
    /// None.
    pub(crate) fn new(alloc: Global) -> Pending
        ensures { open_in result ≡ [] }
    {
        Pending {
            top: None,
            outer: Vec::new(alloc),
        }
    }

    /// Whether there are none.
    pub(crate) fn is_empty(&self) -> bool
        ensures { IsTrue result ↔ open_in self.now ≡ [] }
    {
        match self.top {
            Some(_) => false,
            None => true,
        }
    }

    /// One more, inside of the others.
    pub(crate) fn open(&mut self, node: Around) -> Result<(), AllocError>
        ensures { OnOk result (open_in self.new ≡ node ∷ without_label (open_in self.old)) }
    {
        let mut also = 0;
        match self.top {
            Some(top) => {
                if is_full(top.node) {
                    also = sum(top.also as usize, 1)?;
                } else {
                    self.outer.push(top)?;
                }
            }
            None => self.outer.clear(),
        }
        self.top = Some(Open { node, also });
        Ok(())
    }

    /// One kid less of the innermost one is left.
    pub(crate) fn take_one(&mut self)
        ensures { open_in self.new ≡ with_one_less (open_in self.old) }
    {
        if let Some(top) = &mut self.top {
            if top.node.plain > 0 {
                top.node.plain -= 1;
            } else {
                top.node.flat = top.node.flat.saturating_sub(1);
            }
        }
    }

    /// Whether a node with this label would be lifted now.
    pub(crate) fn lifts(&self, labels: &[Label], label: u32) -> bool
        ensures { result ≡ lifts labels.now (open_in self.now) (label_at labels.now label) }
    {
        match self.top {
            Some(top) => is_lifted_by(labels, top.node, label),
            None => false,
        }
    }

    /// In place of a kid that is lifted come those of this node. The only error is that they can't be counted.
    pub(crate) fn lift(&mut self, node: Around) -> Result<(), AllocError>
        ensures { OnOk result (open_in self.new ≡ with_lifted node.plain node.flat (open_in self.old)) }
    {
        match self.top {
            Some(top) => {
                let flat = sum(node.flat as usize, top.node.flat.saturating_sub(1))?;
                let node = Around {
                    plain: node.plain,
                    flat,
                    label: top.node.label,
                };
                self.top = Some(Open {
                    node,
                    also: top.also,
                });
            }
            None => {}
        }
        Ok(())
    }

    /// Whether no kids are left of the innermost one.
    #[inline(always)]
    pub(crate) fn has_full(&self) -> bool
        ensures { result ≡ has_some (finished (open_in self.now)) }
    {
        match self.top {
            Some(top) => is_full(top.node),
            None => false,
        }
    }

    /// Drops the innermost ones of which no kids are left, and says how many they are. The only error is that they can't be counted.
    pub(crate) fn drop_full(&mut self) -> Result<u32, AllocError>
        ensures left { OnOk result (open_in self.new ≡ unfinished (open_in self.old)) }
        ensures count { IfOk result (λ n. n ≡ finished (open_in self.old)) }
    {
        let mut count = 0_u32;
        while let Some(top) = self.top {
            if !is_full(top.node) {
                return Ok(count);
            }
            count = sum(top.also as usize + 1, count)?;
            self.top = self.outer.pop();
        }
        Ok(count)
    }
}

/// Whether a node with this label would be lifted by this one.
fn is_lifted_by(labels: &[Label], top: Around, label: u32) -> bool
    ensures { result ≡ (is_zero top.plain && bytes_eq (label_at labels.now label) (label_at labels.now top.label)) }
{
    top.plain == 0
        && named(labels, label as usize).as_bytes() == named(labels, top.label as usize).as_bytes()
}

/// Whether no kids are left.
fn is_full(top: Around) -> bool
    ensures { result ≡ is_full top.plain top.flat }
{
    top.plain == 0 && top.flat == 0
}

/// The sum. The only error is that it doesn't fit.
pub(crate) fn sum(count: usize, more: u32) -> Result<u32, AllocError>
    ensures { IfOk result (λ n. n ≡ count + more) }
{
    let Ok(count) = u32::try_from(count) else {
        return Err(AllocError);
    };
    count.checked_add(more).ok_or(AllocError)
}
