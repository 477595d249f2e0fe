//! The nodes and leaves of a forest, in the order in which they are printed.
//!
//! A forest's entries are visited from the last to the first, and a node's line is written after those of all of its kids. So the lines come in
//! reverse. No text is copied, and nothing recurses, however deep the trees are.

use pg_tree::{Entries, Forest, Seen};
use std::alloc::{AllocError, Global};

/// A node or a leaf.
#[derive(Clone, Copy)]
pub(crate) struct Line<'a> {
    pub is_leaf: bool,
    /// Its label or its text.
    pub name: &'a [u8],
    /// How many nodes it is in.
    pub depth: u32,
    /// How many nodes and leaves end after it.
    pub after: u32,
}

/// The lines of the forest.
pub(crate) fn lines_of<'a>(alloc: Global, forest: &'a Forest) -> Result<Vec<Line<'a>>, AllocError> {
    let mut reading = Reading {
        lines: Vec::new(alloc),
        open: Vec::new(alloc),
        met: 0,
    };
    let mut entries = forest.entries();
    for _ in 0..entries.len() {
        reading.read(&mut entries)?;
    }
    reading.close(0)?;
    let Reading { mut lines, .. } = reading;
    lines.reverse();
    Ok(lines)
}

/// A node some of whose kids may still come.
#[derive(Clone, Copy)]
struct Open<'a> {
    label: &'a [u8],
    /// How many entries come before its tree.
    begin: usize,
    /// How many nodes and leaves end after it.
    after: u32,
}

/// The lines so far, from the last on; the open nodes, the innermost last; and the number of nodes and leaves so far.
#[derive(Drop)]
struct Reading<'a> {
    lines: Vec<Line<'a>>,
    open: Vec<Open<'a>>,
    met: u32,
}

impl<'a> Reading<'a> {
    /// Reads the next entry.
    fn read(&mut self, entries: &mut Entries<'a>) -> Result<(), AllocError> {
        let count = entries.len();
        match entries.next() {
            Some(Seen::Leaf(text)) => self.leaf(text, count),
            Some(Seen::Node(label, size)) => self.open(label, size, count),
            Some(Seen::Away) | None => Ok(()),
        }
    }

    /// Reads a leaf, which is the last of `count` entries.
    fn leaf(&mut self, text: &'a [u8], count: usize) -> Result<(), AllocError> {
        self.close(count)?;
        let after = self.meet();
        self.push(true, text, after)
    }

    /// Opens a node, which is the last of `count` entries and whose tree has `size` of them.
    fn open(&mut self, label: &'a [u8], size: usize, count: usize) -> Result<(), AllocError> {
        self.close(count)?;
        let begin = count.saturating_sub(size);
        let after = self.meet();
        self.open.push(Open {
            label,
            begin,
            after,
        })?;
        Ok(())
    }

    /// Counts one more node or leaf, and returns how many there were before.
    fn meet(&mut self) -> u32 {
        let before = self.met;
        self.met = before.saturating_add(1);
        before
    }

    /// Ends the nodes that have none of the first `count` entries.
    fn close(&mut self, count: usize) -> Result<(), AllocError> {
        for _ in 0..self.open.len() {
            match self.open.last() {
                Some(node) if node.begin >= count => self.close_last()?,
                Some(_) | None => break,
            }
        }
        Ok(())
    }

    /// Ends the innermost open node.
    fn close_last(&mut self) -> Result<(), AllocError> {
        match self.open.pop() {
            Some(node) => self.push(false, node.label, node.after),
            None => Ok(()),
        }
    }

    fn push(&mut self, is_leaf: bool, name: &'a [u8], after: u32) -> Result<(), AllocError> {
        self.lines.push(Line {
            is_leaf,
            name,
            depth: counted(self.open.len()),
            after,
        })?;
        Ok(())
    }
}

/// The number in 32 bits, or the greatest if it doesn't fit, which happens for no text.
fn counted(number: usize) -> u32 {
    match u32::try_from(number) {
        Ok(count) => count,
        Err(_) => u32::MAX,
    }
}
