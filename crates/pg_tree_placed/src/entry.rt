//! The steps that make trees.

ghost use Rattle.std.specs.Prelude.{◌≡◌};
ghost use Rattle.pg_tree_placed.specs.Made.{kids_taken};

/// A step: a leaf, or what is made of the last trees. It takes 12 bytes.
#[derive(Clone, Copy)]
pub(crate) enum Entry {
    /// A leaf of the characters between two places of the text.
    Leaf(u32, u32),
    /// A node with the label of this number, and how many of the last trees are its kids.
    Node(u32, u32),
    /// The same, where each kid with the same label is replaced by its own kids.
    Flat(u32, u32),
    /// A node with the label of this number, whose one kid is a leaf of the characters between two places of the text: many tokens are.
    Single(u16, u32, u32),
    /// A leaf of all texts of so many of the last trees.
    Join(u32),
}

impl Entry {
    /// How many trees it takes.
    pub(crate) fn kids(self) -> usize
        ensures { result ≡ kids_taken self }
    {
        match self {
            Entry::Leaf(_, _) | Entry::Single(_, _, _) => 0,
            Entry::Node(_, kids) | Entry::Flat(_, kids) | Entry::Join(kids) => kids as usize,
        }
    }
}
