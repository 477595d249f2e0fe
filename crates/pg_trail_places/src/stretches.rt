//! The stretches of the nodes and leaves of a forest, kept beside a forest that is being made.
//!
//! The nodes and leaves are in the forest's order, each after its kids, and every operation on the forest is done on them too.
//! A node that its kids replace stays as an entry marked as gone, so that later entries aren't moved.

use crate::stretch::Stretch;
use pg_tree::{Label, Shape};
use std::alloc::{AllocError, Global};

/// Marks an entry as gone: no text has a place with that many characters before it.
const GONE: u32 = u32::MAX;

/// The name of a tree that is in no other tree yet.
#[derive(Clone, Copy)]
pub(crate) enum Name<'a> {
    /// A leaf has no name.
    Leaf,
    /// A node with this label.
    Text(&'a str),
    /// A node whose label has these characters.
    Symbol(&'a [char]),
}

impl Name<'_> {
    /// Whether it is the name of a node with this label.
    fn is(&self, label: &str) -> bool {
        match self {
            Name::Leaf => false,
            Name::Text(text) => *text == label,
            Name::Symbol(symbol) => label.chars().eq(symbol.iter().copied()),
        }
    }
}

/// A tree that is in no other yet.
#[derive(Clone, Copy)]
struct Root<'a> {
    name: Name<'a>,
    /// How many nodes and leaves this tree and the trees before it have.
    end: usize,
}

/// The stretches of the nodes and leaves of a list of trees.
#[derive(Drop)]
pub(crate) struct Stretches<'a> {
    stretches: Vec<Stretch>,
    roots: Vec<Root<'a>>,
}

impl<'a> Stretches<'a> {
    pub(crate) fn new(alloc: Global) -> Stretches<'a> {
        Stretches {
            stretches: Vec::new(alloc),
            roots: Vec::new(alloc),
        }
    }

    /// How many trees there are.
    pub(crate) fn len(&self) -> usize {
        self.roots.len()
    }

    /// Appends a leaf with this stretch.
    pub(crate) fn push_leaf(&mut self, stretch: Stretch) -> Result<(), AllocError> {
        self.push(Name::Leaf, stretch)
    }

    /// Puts the trees after the first `count` into a node with this stretch.
    pub(crate) fn close(
        &mut self,
        count: usize,
        name: Name<'a>,
        stretch: Stretch,
    ) -> Result<(), AllocError> {
        self.roots.truncate(count);
        self.push(name, stretch)
    }

    /// Drops the trees after the first `count`.
    pub(crate) fn cut(&mut self, count: usize) {
        let end = self.end_of(count);
        self.stretches.truncate(end);
        self.roots.truncate(count);
    }

    /// Builds a tree of the shape from those after the first ones.
    pub(crate) fn build(
        &mut self,
        shape: &'a Shape,
        symbol: Name<'a>,
        count: usize,
        stretch: Stretch,
    ) -> Result<(), AllocError> {
        match shape {
            Shape::Node(label) => self.close(count, Name::Text(label.as_str()), stretch),
            Shape::Symbol => self.close(count, symbol, stretch),
            Shape::Join => {
                self.cut(count);
                self.push_leaf(stretch.joined())
            }
            Shape::Flat(label) => {
                self.flatten(count, label);
                self.close(count, Name::Text(label.as_str()), stretch)
            }
        }
    }

    /// The stretches of all entries that aren't gone.
    pub(crate) fn kept(self) -> Vec<Stretch> {
        let Stretches { mut stretches, .. } = self;
        stretches.retain(|stretch| stretch.start != GONE);
        stretches
    }

    /// Appends an entry.
    fn push(&mut self, name: Name<'a>, stretch: Stretch) -> Result<(), AllocError> {
        self.stretches.extend_from_slice(&[stretch])?;
        let end = self.stretches.len();
        self.roots.extend_from_slice(&[Root { name, end }])
    }

    /// How many nodes and leaves the first `count` trees have.
    fn end_of(&self, count: usize) -> usize {
        match count.checked_sub(1) {
            Some(last) => match self.roots.get(last) {
                Some(root) => root.end,
                None => self.stretches.len(),
            },
            None => 0,
        }
    }

    /// Marks as gone, among the trees after the first `count`, the nodes with this label, but not their kids.
    fn flatten(&mut self, count: usize, label: &Label) {
        for number in count..self.roots.len() {
            if self.is_labelled(number, label) {
                let end = self.end_of(number.saturating_add(1));
                forget(end, self.stretches.as_mut_slice());
            }
        }
    }

    /// Whether the tree with this number is a node with this label.
    fn is_labelled(&self, number: usize, label: &Label) -> bool {
        match self.roots.get(number) {
            Some(root) => root.name.is(label.as_str()),
            None => false,
        }
    }
}

/// Marks the last of the first `end` entries as gone.
fn forget(end: usize, stretches: &mut [Stretch]) {
    match stretches.get_mut(end.saturating_sub(1)) {
        Some(stretch) => stretch.start = GONE,
        None => {}
    }
}
