//! Notes on steps that are written otherwise than by themselves.
//!
//! A node's step comes after those of its kids, but its text begins before theirs. So a note says of a step how many nodes begin before it. Most steps have none.

/// What is noted of a step.
#[derive(Clone, Copy)]
pub(crate) struct Note {
    /// The number of the step.
    pub(crate) step: u32,
    /// How many nodes begin before what it writes.
    pub(crate) begins: u32,
    /// What it writes.
    pub(crate) way: Way,
}

/// How a step is written.
#[derive(Clone, Copy)]
pub(crate) enum Way {
    /// By itself: a leaf, a node around a leaf, or the closing text of a node.
    Shown,
    /// Its node is lifted: only a leaf is left of it.
    Lifted,
    /// A joined leaf begins, to which so many steps belong, this one among them.
    Joined(u32),
}
