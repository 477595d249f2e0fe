//! What a draft does at the end of its way, and what texts its nodes should have.

use pg_grammar_form::NodeId;

/// What text a node should have.
#[derive(Clone, Copy)]
pub enum Want {
    /// A shortest one.
    Any,
    /// The empty one.
    Nothing,
    /// A nonempty one.
    Some,
    /// One that begins with the guide's next character.
    Guide,
    /// One that begins with a space.
    Space,
}

/// What happens at the node that the way leads to.
#[derive(Clone, Copy)]
pub enum Target {
    /// The draft ends before it.
    Stop,
    /// The node gets such a text.
    Whole(Want),
    /// The alternative with this index is picked, with such a text.
    Alternative(usize, Want),
    /// The repetition has this many rounds.
    Rounds(usize),
    /// The operator with this number in the table is applied to operands with such texts.
    Applied(usize, Want, Want),
}

/// A task of a draft.
#[derive(Clone, Copy)]
pub enum Task {
    /// Begin the guide.
    Start,
    /// Give a node a text.
    Node(NodeId, Want),
    /// Take the step of the way with this number, if there is one.
    Step(usize),
    /// Make more rounds of a part as long as they can follow the guide, and count them in the choice at this index.
    More(NodeId, usize),
    /// After a try that gives a key: keep away what may not follow it.
    Exclude(NodeId),
    /// Add the symbol of the operator with this number in the table.
    Symbol(usize),
}

/// A choice made at a node.
#[derive(Clone, Copy)]
pub enum Pick {
    /// The alternative, counted from 1.
    Alternative(usize),
    /// The number of rounds.
    Rounds(usize),
    /// The operator with this number in the table, or none.
    Operator(Option<usize>),
}
