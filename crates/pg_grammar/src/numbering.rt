//! The numbers of a grammar's forms: of each form's parts, and of the rules' bodies.
//!
//! The forms are read from the last to the first, since a form's parts are the next whole forms. The forms that wait to
//! become parts, or to stay rules' bodies, are kept in order. Nothing is moved yet: so if memory runs out, the caller
//! still has everything.

ghost use Rattle.std.specs.Prelude.{◌≡◌, ◌≤◌, [], take, drop, map, length, IfOk, OnOk, vec_capacity};
ghost use Rattle.pg_grammar_form.specs.Preorder.{roots, parts_from};
ghost use Rattle.pg_grammar_form.specs.Forms.{part_count};

use pg_grammar_form::{BaseForm, Node, NodeId, Parts};
use pg_grammar_value::Rule;
use std::alloc::{AllocError, Global};
use std::collections::VecDeque;

/// The numbers of some forms, and empty lists with room for their nodes and for the rules.
#[derive(Drop)]
pub(crate) struct Numbers {
    /// For each form the numbers of its parts.
    pub parts: VecDeque<Parts>,
    /// The numbers of the forms that aren't parts.
    pub bodies: VecDeque<NodeId>,
    pub nodes: Vec<Node>,
    pub rules: Vec<Rule>,
}

/// The numbers of these forms, and room for their nodes and for this many rules.
pub(crate) fn numbers_of(
    alloc: Global,
    forms: &[BaseForm],
    rule_count: usize,
) -> Result<Numbers, AllocError>
    ensures parts { IfOk result (λ n. n.parts.items ≡ parts_from 0 (map part_count forms.now)) }
    ensures bodies { IfOk result (λ n. n.bodies.items ≡ roots 0 (map part_count forms.now)) }
    ensures nodes { IfOk result (λ n. n.nodes.items ≡ []) }
    ensures rules { IfOk result (λ n. n.rules.items ≡ []) }
    ensures node_room { IfOk result (λ n. length forms.now ≤ vec_capacity n.nodes) }
    ensures rule_room { IfOk result (λ n. rule_count ≤ vec_capacity n.rules) }
{
    let (parts, bodies) = parts_and_roots(alloc, forms)?;
    let nodes = Vec::with_capacity(alloc, forms.len())?;
    let rules = Vec::with_capacity(alloc, rule_count)?;
    Ok(Numbers {
        parts,
        bodies,
        nodes,
        rules,
    })
}

/// For each of these forms the numbers of its parts, and the numbers of the forms that aren't parts.
fn parts_and_roots(
    alloc: Global,
    forms: &[BaseForm],
) -> Result<(VecDeque<Parts>, VecDeque<NodeId>), AllocError>
    ensures parts { IfOk result (λ x. x.0.items ≡ parts_from 0 (map part_count forms.now)) }
    ensures roots { IfOk result (λ x. x.1.items ≡ roots 0 (map part_count forms.now)) }
{
    let mut parts = VecDeque::new(alloc);
    let mut roots = VecDeque::new(alloc);
    let mut rest = forms;
    while let Some((form, before)) = rest.split_last() {
        parts.push_front(taken(alloc, &mut roots, form.part_count())?)?;
        roots.push_front(NodeId::new(before.len()))?;
        rest = before;
    }
    Ok((parts, roots))
}

/// Takes the first `count` numbers out.
fn taken(alloc: Global, roots: &mut VecDeque<NodeId>, count: usize) -> Result<Parts, AllocError>
    ensures parts { IfOk result (λ parts. parts ≡ take count roots.old.items) }
    ensures rest { OnOk result (roots.new.items ≡ drop count roots.old.items) }
{
    let mut numbers = Vec::new(alloc);
    for _ in 0..count {
        let Some(root) = roots.pop_front() else {
            break;
        };
        numbers.push(root)?;
    }
    Ok(Parts::new(numbers))
}
