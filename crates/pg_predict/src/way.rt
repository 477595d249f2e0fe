//! The way through all violations of a grammar: node by node, and question by question at each node.
ghost use Rattle.std.specs.Prelude.{◌≡◌, ◌∷◌, ◌<◌, [], MatchOption, IfSome, length};
ghost use Rattle.std.specs.Option.{IfNone};
ghost use Rattle.pg_predict.specs.Rest.{rest_of};
ghost use Rattle.pg_predict.specs.Texts.{IsSource};

use crate::asking::{Asking, find_next};
use crate::source::Source;
use pg_grammar_form::NodeId;
use pg_predict_conditions::ViolationKind;

/// The number of the current node, and the next question there.
#[derive(Clone, Copy)]
pub(crate) struct Way {
    pub(crate) node: usize,
    pub(crate) asking: Asking,
}

impl Way {
    /// The start of the way.
    pub(crate) fn whole() -> Way
        ensures { result ≡ record { node = 0; asking = record { series = 0; question = 0 } } }
    {
        Way {
            node: 0,
            asking: Asking::first(),
        }
    }
}

/// The next violation; it is at the node to which the way has moved.
pub(crate) fn go_on(source: &Source, way: &mut Way) -> Option<ViolationKind<usize>>
    requires { IsSource source.now }
    ensures finds { MatchOption result (rest_of source.now.grammar source.now.judge way.old ≡ []) (λ kind. rest_of source.now.grammar source.now.judge way.old ≡ record { node = way.new.node; kind = kind } ∷ rest_of source.now.grammar source.now.judge way.new) }
    ensures node { IfSome result (λ kind. way.new.node < length source.now.grammar.nodes) }
    ensures ends { IfNone result (rest_of source.now.grammar source.now.judge way.new ≡ []) }
{
    let count = source.grammar.nodes().len();
    for number in way.node..count {
        let node = NodeId::new(number);
        let form = source.grammar.node(node);
        if let Some(kind) = find_next(&source.judge, node, form, &mut way.asking) {
            way.node = number;
            return Some(kind);
        }
        way.asking = Asking::first();
    }
    way.node = count;
    None
}
