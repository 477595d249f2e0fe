//! Where nodes stand: in which rule, and at which number in its body.
ghost use Rattle.std.specs.Prelude.{◌≡◌, ◌<◌};
ghost use Rattle.pg_predict.specs.Findings.{rule_of, body_of, number_in_rule};
ghost use Rattle.pg_predict.specs.Texts.{place_at};

use pg_grammar_form::NodeId;
use pg_grammar_value::Rule;

/// A node, and where it stands.
#[derive(Clone, Copy)]
pub struct Place {
    /// The node.
    pub node: NodeId,
    /// The number of the rule, from 0 in file order.
    pub rule: usize,
    /// The node's number in the rule's body, from 1, in preorder.
    pub number: usize,
}

/// The place of a node (ours). It allocates no memory.
pub fn place_of(rules: &[Rule], node: NodeId) -> Place
    requires { node < 8192 }
    ensures { result ≡ place_at rules.now node }
{
    let rule = rule_of(rules, node.index());
    Place {
        node,
        rule,
        number: node.index().saturating_sub(body_of(rules, rule)) + 1,
    }
}

/// The number of the last rule whose body isn't after the node.
fn rule_of(rules: &[Rule], node: usize) -> usize
    ensures { result ≡ rule_of rules.now node }
{
    let mut count: usize = 0;
    for rule in rules {
        if rule.body.index() <= node {
            count += 1;
        }
    }
    count.saturating_sub(1)
}

/// The number of the body of the rule with this number; 0 if there is no such rule.
pub fn body_of(rules: &[Rule], rule: usize) -> usize
    ensures { result ≡ body_of rules.now rule }
{
    match rules.get(rule) {
        Some(rule) => rule.body.index(),
        None => 0,
    }
}
