//! An iterator over all findings of a grammar, which keeps none of them.
ghost use Rattle.std.specs.Prelude.{◌≡◌, ◌<◌, ◌∷◌, [], map, length, MatchOption};
ghost use Rattle.std.specs.Option.{IfNone};
ghost use Rattle.pg_predict_conditions.specs.Judged.{noted_grammar};
ghost use Rattle.pg_predict.specs.Texts.{IsSource, place_at};

use crate::finding::Finding;
use crate::places::{Place, place_of};
use crate::source::Source;
use crate::way::{Way, go_on};
use pg_grammar_form::NodeId;
use std::marker::Model;

/// All findings that are still to come, in the order of nodes, conditions and alternatives. Contracts see it as their list. It allocates no memory.
#[derive(Drop)]
pub struct Findings<'r> {
    source: &'r Source,
    way: Way,
    /// The place of the last finding; at first, that of the first node.
    place: Place,
}

impl<'r> Model for Findings<'r> {
    ghost use Rattle.std.specs.Prelude.{List};
    ghost use Rattle.pg_predict.specs.Found.{Found, IsThere, coming};

    ghost Value = { List Found };

    ghost view = { λ findings. coming findings.source.now findings.way };

    ghost invariant = { λ findings. IsThere findings.source.now findings.place };
}

impl<'r> Findings<'r> {
    ghost use Rattle.pg_predict.specs.Found.{found_by};

    /// All findings of a grammar.
    pub(crate) fn of(source: &'r Source) -> Findings<'r>
        requires { IsSource source.now }
        ensures { result ≡ map (found_by source.now) (noted_grammar source.now.grammar source.now.judge) }
    {
        Findings {
            source,
            way: Way::whole(),
            place: place_of(source.grammar.rules(), NodeId::new(0)),
        }
    }

    /// The next finding, or none if none is left (ours). It allocates no memory.
    pub fn next(&mut self) -> Option<Finding<'r>>
        ensures first { MatchOption result (self.old ≡ []) (λ finding. self.old ≡ finding ∷ self.new) }
        ensures ends { IfNone result (self.new ≡ []) }
    {
        let source = self.source;
        match go_on(source, &mut self.way) {
            Some(kind) => {
                self.place = place_after(source, self.place, self.way.node);
                Some(Finding::new(source, self.place, kind))
            }
            None => None,
        }
    }
}

/// The place of a node, computed once for all its findings.
fn place_after(source: &Source, last: Place, node: usize) -> Place
    requires source { IsSource source.now }
    requires last { last ≡ place_at source.now.grammar.rules last.node }
    requires node { node < length source.now.grammar.nodes }
    ensures { result ≡ place_at source.now.grammar.rules node }
{
    if last.node.index() == node {
        return last;
    }
    place_of(source.grammar.rules(), NodeId::new(node))
}
