//! What the trees of a forest consist of, in the order in which it is printed.

use crate::stretch::Stretch;

/// A leaf, or the beginning or the end of a node (ours).
#[derive(Clone, Copy)]
pub(crate) enum Piece<'a> {
    /// A leaf with its text.
    Leaf(&'a [u8], Stretch),
    /// The beginning of a node with this label.
    Open(&'a [u8], Stretch),
    /// The end of the newest node that hasn't ended.
    Close,
}
