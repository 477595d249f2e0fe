//! Frames, which wait for the parts of nodes, and the modes of the machine.
//!
//! The trees, the trail and the messages of a whole run lie on three lists of the machine, those of a frame after
//! those of the frames below. The operators in force are those of its table, the newest last. So a frame keeps only how
//! long the lists were, and how many operators there were, if it may cut them back.

use pg_grammar_form::{Around, ChainBuilder, NodeId, Side};
use pg_grammar_value::TrailItem;
use pg_machine_lists::ExpressionFrame;
use pg_message_tape::{KeptError, TapeError};
use pg_tree::Forest;

/// The answer of a node. Its trees, its items and the messages of its error are the last ones on the lists. After a
/// failure others may lie there, which the next step cuts off.
#[derive(Clone, Copy)]
pub enum Reply {
    /// It is ok, and ends at this place.
    Succeeded {
        consumed: bool,
        end: usize,
        error: TapeError,
    },
    /// It failed.
    Failed {
        consumed: bool,
        error: TapeError,
    },
    /// A round of a repetition was ok and consumed nothing.
    EmptyRound,
}

/// What the next turn does.
#[derive(Clone, Copy)]
pub enum Mode {
    /// Enters the node at the place.
    At(NodeId, usize),
    /// Passes the answer to the topmost frame.
    With(Reply),
    /// There is no answer: a chain goes on without an end, or a node names what its grammar doesn't have.
    Endless,
}

/// The numbers of trees, items and operators. Items and operators lie in memory, so 32 bits count them; trees may only
/// be counted.
#[derive(Clone, Copy)]
pub struct Marks {
    pub forest: usize,
    pub trail: u32,
    pub operators: u32,
}

/// The result of the earlier parts of a sequence.
#[derive(Clone, Copy)]
pub struct Before {
    pub consumed: bool,
    pub kept: KeptError,
}

/// A sequence whose part runs.
#[derive(Clone, Copy)]
pub struct PartsFrame<'a> {
    /// The later parts.
    pub rest: &'a [NodeId],
    /// The earlier parts, if there are any.
    pub before: Option<Before>,
}

/// An alternative that was ok and empty. It gives the answer unless a later one consumes.
#[derive(Drop)]
pub struct EmptyOk {
    pub end: usize,
    /// Its trees that were kept.
    pub forest: Forest,
    /// How many further trees it had.
    pub hidden: usize,
    pub trail: Vec<TrailItem>,
    /// The kept error, with which those of later alternatives are merged.
    pub kept: KeptError,
}

/// The result of the earlier alternatives of a choice.
#[derive(Drop)]
pub enum Tried {
    /// There are none.
    Nothing,
    /// They failed.
    Failure(KeptError),
    /// One of them was ok and empty; the first of these is kept.
    EmptyOk(Box<EmptyOk>),
}

/// A choice whose alternative runs.
#[derive(Drop)]
pub struct ChoiceFrame<'a> {
    /// The later alternatives.
    pub rest: &'a [NodeId],
    /// The place where they begin.
    pub start: usize,
    /// The result of the earlier ones.
    pub tried: Tried,
    /// The marks before them.
    pub marks: Marks,
    /// The running alternative's number, from 1.
    pub which: u32,
}

/// A repetition whose round runs.
#[derive(Clone, Copy)]
pub struct RoundsFrame {
    pub part: NodeId,
    /// How many rounds came before.
    pub count: usize,
    /// The place where this one begins.
    pub start: usize,
    /// The index of the repetition's item in the trail.
    pub slot: usize,
    /// How many messages there were before the repetition.
    pub messages: usize,
    /// The marks before this round.
    pub marks: Marks,
    /// Whether the rounds before consumed, which is whether there were any.
    pub consumed: bool,
}

/// A chain whose first operand runs.
#[derive(Clone, Copy)]
pub struct ChainFrame<'a> {
    pub side: Side,
    pub used: &'a ChainBuilder,
    pub operand: NodeId,
    pub separator: NodeId,
    /// The index of the chain's item in the trail.
    pub slot: usize,
    /// How many trees there were before the chain.
    pub forest: usize,
}

/// A chain after its first operand, whose separator or later operand runs.
#[derive(Drop)]
pub struct LinksFrame<'a> {
    pub chain: ChainFrame<'a>,
    /// How many links came before.
    pub count: usize,
    pub consumed: bool,
    pub kept: KeptError,
    /// In a right chain, the indices where trees begin that wait to be folded with later ones.
    pub waiting: Vec<usize>,
    /// The index where the trees of the link's left operand begin.
    pub left: usize,
    /// The place where the link begins.
    pub start: usize,
    /// The marks before the link.
    pub marks: Marks,
}

/// A chain whose operand runs after a separator that was ok.
#[derive(Drop)]
pub struct OperandFrame<'a> {
    pub links: Box<LinksFrame<'a>>,
    /// The result of the separator.
    pub before: Before,
    /// How many trees there were before the operand.
    pub trees: usize,
}

/// A form around a part, which runs.
#[derive(Clone, Copy)]
pub struct AroundFrame<'a> {
    pub around: &'a Around,
    /// The place where the part begins.
    pub start: usize,
    /// How many trees there were before it.
    pub forest: usize,
    /// How many operators there were before it.
    pub operators: usize,
}

/// A frame: what a node that was entered waits for.
#[derive(Drop)]
pub enum Frame<'a> {
    Parts(PartsFrame<'a>),
    Choice(ChoiceFrame<'a>),
    Rounds(RoundsFrame),
    First(ChainFrame<'a>),
    /// A separator runs.
    Separator(Box<LinksFrame<'a>>),
    Operand(OperandFrame<'a>),
    Rule,
    Around(AroundFrame<'a>),
    /// The term of an expression runs.
    Expression(Box<ExpressionFrame<'a>>),
}

/// A reference to a frame in its list.
#[derive(Clone, Copy)]
pub enum FrameRef<'f, 'a> {
    Parts(&'f PartsFrame<'a>),
    Choice(&'f ChoiceFrame<'a>),
    Rounds(&'f RoundsFrame),
    First(&'f ChainFrame<'a>),
    Separator(&'f Box<LinksFrame<'a>>),
    Operand(&'f OperandFrame<'a>),
    Rule,
    Around(&'f AroundFrame<'a>),
    Expression(&'f Box<ExpressionFrame<'a>>),
}
