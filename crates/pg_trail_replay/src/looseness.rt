//! The looseness of trees in forms, chains and expressions: how much of them reaches the result.

ghost use Rattle.std.specs.Prelude.{◌≡◌, OnOk};
ghost use Rattle.std.specs.Str.{bytes_eq};
ghost use Rattle.pg_expand_fitting.specs.Judge.{step_of};
ghost use Rattle.pg_trail_replay.specs.Tasks.{joins, as_kids, as_joined, inside, inside_form, newest_waiting, operands_waiting, waiting_before, covers, is_text, is_dropped, flattens, is_steady, has_label, makes_node, leaves_out};
ghost use Rattle.pg_trail_replay.specs.View.{loose_of, waiting_of};

use crate::expressions::builder_on;
use crate::task::Looseness;
use pg_expand_fitting::Step;
use pg_grammar_form::{Around, OperatorBuilders};
use pg_grammar_value::Fixity;
use pg_tree::{Label, Shape};
use std::alloc::AllocError;

/// The looseness of the part's trees in the form, given that of the form's own: `text` makes its leaf from the text between
/// its places.
pub(crate) fn inside_form<'a>(around: &'a Around, loose: Looseness<'a>) -> Looseness<'a>
    ensures { loose_of result ≡ inside_form around.now (loose_of loose.entry) }
{
    match around {
        Around::Text | Around::Skip => Looseness::Dropped,
        Around::Build(used, _) => inside(&used.shape, loose),
        Around::Try | Around::Label(_) | Around::Local => loose,
    }
}

/// The looseness of the trees from which a tree of the shape is built, given that of the tree itself.
pub(crate) fn inside<'a>(shape: &'a Shape, loose: Looseness<'a>) -> Looseness<'a>
    ensures { loose_of result ≡ inside shape.now (loose_of loose.entry) }
{
    match shape {
        Shape::Node(_) | Shape::Symbol => as_kids(loose),
        Shape::Join => as_joined(loose),
        Shape::Flat(label) => match loose {
            Looseness::Tight | Looseness::Apart(_) => Looseness::Apart(label),
            Looseness::OnlyText | Looseness::Dropped => loose,
        },
    }
}

/// Trees that are flattened are tight in a tree whose kids they become.
fn as_kids(loose: Looseness<'_>) -> Looseness<'_>
    ensures { loose_of result ≡ as_kids (loose_of loose.entry) }
{
    match loose {
        Looseness::Tight | Looseness::Apart(_) => Looseness::Tight,
        Looseness::OnlyText | Looseness::Dropped => loose,
    }
}

/// Only the text of trees that are joined reaches the leaf.
fn as_joined(loose: Looseness<'_>) -> Looseness<'_>
    ensures { loose_of result ≡ as_joined (loose_of loose.entry) }
{
    match loose {
        Looseness::Tight | Looseness::Apart(_) | Looseness::OnlyText => Looseness::OnlyText,
        Looseness::Dropped => Looseness::Dropped,
    }
}

/// The looseness of the newest waiting operand's trees.
#[tactic(auto, using(crate::proofs::Steps::newest_last, crate::proofs::Steps::newest_none))]
pub(crate) fn newest_waiting<'a>(waiting: &[Looseness<'a>]) -> Looseness<'a>
    ensures { loose_of result ≡ newest_waiting (waiting_of waiting.now) }
{
    match waiting.last() {
        Some(loose) => *loose,
        None => Looseness::Tight,
    }
}

/// Changes the waiting operands after a step to those before it.
#[tactic(auto, using(crate::proofs::Steps::waits_less))]
pub(crate) fn wait_before<'a>(
    builders: &'a OperatorBuilders,
    step: &Step,
    waiting: &mut Vec<Looseness<'a>>,
) -> Result<(), AllocError>
    ensures { OnOk result (waiting_of waiting.new.items ≡ waiting_before builders.now (step_of step.now) (waiting_of waiting.old.items)) }
{
    match step {
        Step::Term => {
            let _operand = waiting.pop();
            Ok(())
        }
        Step::Symbol(_) => Ok(()),
        Step::Application(operator) => {
            let shape = &builder_on(operator.fixity, builders).shape;
            let loose = inside(shape, newest_waiting(waiting.as_slice()));
            let _operand = waiting.pop();
            wait_for_operands(operator.fixity, loose, waiting)
        }
    }
}

/// Adds the operands of an operator to those that wait.
#[tactic(auto, using(crate::proofs::Steps::waits_pushed))]
fn wait_for_operands<'a>(
    fixity: Fixity,
    loose: Looseness<'a>,
    waiting: &mut Vec<Looseness<'a>>,
) -> Result<(), AllocError>
    ensures { OnOk result (waiting_of waiting.new.items ≡ operands_waiting fixity (loose_of loose.entry) (waiting_of waiting.old.items)) }
{
    match fixity {
        Fixity::Infix => waiting.extend_from_slice(&[loose, loose]),
        Fixity::Prefix | Fixity::Postfix => waiting.extend_from_slice(&[loose]),
    }
}

/// Whether the shape joins texts to a leaf.
pub(crate) fn joins(shape: &Shape) -> bool
    ensures { result ≡ joins shape.now }
{
    match shape {
        Shape::Join => true,
        Shape::Node(_) | Shape::Symbol | Shape::Flat(_) => false,
    }
}

/// Whether trees without text that can be left out at looseness `known` can also be left out at `loose`.
pub(crate) fn covers(known: &Looseness, loose: &Looseness) -> bool
    ensures { result ≡ covers (loose_of known.now) (loose_of loose.now) }
{
    match (known, loose) {
        (Looseness::Tight, _) | (_, Looseness::OnlyText | Looseness::Dropped) => true,
        (Looseness::Apart(label), Looseness::Apart(other)) => is_label(label.as_str(), other),
        (Looseness::Apart(_), Looseness::Tight) => false,
        (Looseness::OnlyText | Looseness::Dropped, Looseness::Tight | Looseness::Apart(_)) => false,
    }
}

/// Whether at most the text of trees reaches the result.
pub(crate) fn is_text(loose: &Looseness) -> bool
    ensures { result ≡ is_text (loose_of loose.now) }
{
    match loose {
        Looseness::OnlyText | Looseness::Dropped => true,
        Looseness::Tight | Looseness::Apart(_) => false,
    }
}

/// Whether nothing of trees reaches the result.
pub(crate) fn is_dropped(loose: &Looseness) -> bool
    ensures { result ≡ is_dropped (loose_of loose.now) }
{
    match loose {
        Looseness::Dropped => true,
        Looseness::Tight | Looseness::Apart(_) | Looseness::OnlyText => false,
    }
}

/// Whether a round that adds nothing leaves the tree of a chain of this shape unchanged.
pub(crate) fn is_steady(shape: &Shape, loose: &Looseness) -> bool
    ensures { result ≡ is_steady shape.now (loose_of loose.now) }
{
    is_text(loose) || flattens(shape)
}

/// Whether building a tree of this shape from just such a tree leaves it unchanged.
fn flattens(shape: &Shape) -> bool
    ensures { result ≡ flattens shape.now }
{
    match shape {
        Shape::Flat(_) => true,
        Shape::Node(_) | Shape::Symbol | Shape::Join => false,
    }
}

/// Whether a tree without kids that the form makes is left out, because its kids would take its place.
pub(crate) fn leaves_out(around: &Around, loose: &Looseness) -> bool
    ensures { result ≡ leaves_out around.now (loose_of loose.now) }
{
    match loose {
        Looseness::Apart(label) => makes_node(around, label),
        Looseness::Tight | Looseness::OnlyText | Looseness::Dropped => false,
    }
}

/// Whether the form makes a node with the label.
fn makes_node(around: &Around, label: &Label) -> bool
    ensures { result ≡ makes_node around.now label.now }
{
    match around {
        Around::Build(used, symbol) => has_label(&used.shape, symbol.as_str(), label),
        Around::Try | Around::Text | Around::Skip | Around::Label(_) | Around::Local => false,
    }
}

/// Whether the shape's tree has the label.
fn has_label(shape: &Shape, symbol: &str, label: &Label) -> bool
    ensures { result ≡ has_label shape.now symbol.now label.now }
{
    match shape {
        Shape::Node(other) | Shape::Flat(other) => is_label(other.as_str(), label),
        Shape::Symbol => is_label(symbol, label),
        Shape::Join => false,
    }
}

/// Whether these are the label's characters.
fn is_label(characters: &str, label: &Label) -> bool
    ensures { result ≡ bytes_eq characters.now label.now }
{
    characters == label.as_str()
}
