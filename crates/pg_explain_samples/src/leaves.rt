//! The costs of leaves.

use crate::shortest::{CHARACTER, Front, NONE};
use pg_class::Class;
use pg_grammar_form::{Leaf, NodeId, WordId};
use pg_sets::Sets;
use pg_start::StartKind;
use pg_text::Characters;

/// The length of a declaration in characters, or a little more.
const DECLARATION: usize = 12;
/// The cost of the end of the text. It is higher than that of other empty texts, since nothing may follow it.
const END: u32 = 8;
/// Strings of this many characters or more aren't tried.
const LONGEST: usize = 2_048;

/// The first start at a node. A leaf that begins with a character of a class, and a try that gives a key, have no other.
pub(crate) fn start_at<'g>(sets: &'g Sets, node: NodeId) -> Option<&'g StartKind> {
    let number = sets.first(node).next(0)?;
    let listed = sets.starts().get(number)?;
    Some(listed.start.view())
}

/// The cost of a leaf's text.
pub(crate) fn leaf_cost(sets: &Sets, node: NodeId, leaf: &Leaf<WordId>, front: Front) -> u32 {
    match leaf {
        Leaf::Satisfy(_) | Leaf::Word(_) => match start_at(sets, node) {
            Some(StartKind::Class(class) | StartKind::Word(class, _, _)) => {
                cost_of(front, class_begins(class, front), 1)
            }
            Some(StartKind::Key(_, _) | StartKind::End) | None => NONE,
        },
        Leaf::String(text) => cost_of(front, string_begins(text, front), text.len()),
        Leaf::NotFollowedBy(_) => cost_of_nothing(front, 1),
        Leaf::EndOfText => cost_of_nothing(front, END),
        Leaf::Declare(_) => {
            let begins = match front {
                Front::Any | Front::Nothing | Front::Some => true,
                Front::Character(c) => c == 'i' || c == 'p',
            };
            cost_of(front, begins, DECLARATION)
        }
    }
}

/// The cost of an empty text, where one will do.
fn cost_of_nothing(front: Front, cost: u32) -> u32 {
    match front {
        Front::Any | Front::Nothing => cost,
        Front::Some | Front::Character(_) => NONE,
    }
}

/// The cost of `count` characters, if they begin as wanted.
fn cost_of(front: Front, begins: bool, count: usize) -> u32 {
    let wanted = match front {
        Front::Nothing => false,
        Front::Any | Front::Some | Front::Character(_) => begins,
    };
    if wanted && count < LONGEST {
        CHARACTER.saturating_mul(count as u32)
    } else {
        NONE
    }
}

fn class_begins(class: &Class, front: Front) -> bool {
    match front {
        Front::Any | Front::Nothing | Front::Some => !class.ranges().is_empty(),
        Front::Character(c) => class.has(c),
    }
}

fn string_begins(text: &Characters, front: Front) -> bool {
    match front {
        Front::Any | Front::Nothing | Front::Some => true,
        Front::Character(c) => text.as_slice().first() == Some(&c),
    }
}
