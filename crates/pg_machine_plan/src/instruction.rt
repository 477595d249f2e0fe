//! The instructions that a grammar is laid out in.
//!
//! A node's code is a stretch of them. It begins with an instruction that counts the node as entered, and whoever runs it comes to its end, or goes back to
//! the last mark. What each does is said in `specs/Turns.antt`, and which stretch is a node's in `specs/Layout.antt`.

use pg_grammar_form::NodeId;

/// Whether the trees of a stretch are kept.
#[derive(Clone, Copy, PartialEq, Eq)]
pub enum Keep {
    /// They are put at the end of the forest.
    Kept,
    /// Nobody sees them, as below `text` and `skip`, so none are made.
    Hidden,
}

/// Where to go on, and how many nodes are entered by that alone.
#[derive(Clone, Copy)]
pub struct Arm {
    /// The place in the code.
    pub target: usize,
    /// The number of nodes of what is passed by.
    pub nodes: usize,
}

/// Which node a stretch of code is for.
#[derive(Clone, Copy)]
pub struct Stretch {
    /// Whether it keeps trees.
    pub keep: Keep,
    /// The node.
    pub node: NodeId,
    /// The place after its last instruction.
    pub end: usize,
}

/// An instruction. Places in the code are counted from 0.
#[derive(Clone, Copy)]
pub enum Instruction {
    /// A node is entered.
    Enter,
    /// What the leaf at this node takes, and the node is entered.
    Read(Keep, NodeId),
    /// All characters of a class that come next, one after another, where the class is that of the leaf at this node. A repetition of the leaf is entered,
    /// and the leaf once for each of them and for what ends them.
    Span(Keep, NodeId),
    /// Goes on there.
    Jump(usize),
    /// Goes on by the next character: at the arm of this table for it.
    Pick(usize),
    /// A rule's use is entered, and its body's code is there; `Return` goes on after this.
    Call(usize),
    /// Goes on where the last call was made.
    Return,
    /// A form around a part begins and is entered. It says whether the form's failure counts as consumed where the part's does.
    Open(bool),
    /// The form around a part at this node ends.
    Close(Keep, NodeId),
    /// A chain begins and is entered: its forest is put apart.
    Hold,
    /// The forest of the chain at this node becomes one tree.
    Fold(Keep, NodeId),
    /// After a separator of a chain that is folded from the right, what was before its operand waits.
    Link,
    /// What waits in the chain at this node becomes one tree with what is after it, and this is done again, as long as something waits there.
    FoldLinks(Keep, NodeId),
    /// A chain or an expression ends: its forest is put back.
    Release,
    /// An expression begins and is entered, if the table of operators has so many rows: its forest is put apart. Rows are numbered from 0, the tightest.
    Rows(usize),
    /// A prefix operator of this row waits, if one is read.
    ReadPrefix(usize),
    /// A postfix operator of this row is applied, if one is read, by the builders of the expression at this node.
    ReadPostfix(Keep, NodeId, usize),
    /// An infix operator of this row waits, if one is read that may follow what waits, and it goes on after this; otherwise it passes by one instruction.
    ReadInfix(Keep, NodeId, usize),
    /// The operator that waits is applied and this is done again, if its rank is this: twice its row, and one more for an infix operator.
    Settle(Keep, NodeId, usize),
    /// What fails from here with nothing consumed goes on there.
    Mark(usize),
    /// The mark is taken away, and it goes on there.
    Commit(usize),
    /// The same, where something was consumed since the mark; otherwise the run gives up.
    Again(usize),
    /// Fails with nothing consumed.
    Fail,
    /// The end of the text has to be here. It counts as a node.
    Stop,
}
