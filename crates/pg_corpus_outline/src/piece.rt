//! What the trees of a forest consist of, in the order in which it is printed.

/// A leaf, or the beginning or the end of a node (ours).
#[derive(Clone, Copy)]
pub(crate) enum Piece<'a> {
    /// A leaf with its text.
    Leaf(&'a [u8]),
    /// The beginning of a node with this label.
    Open(&'a [u8]),
    /// The end of the newest node that hasn't ended.
    Close,
}
