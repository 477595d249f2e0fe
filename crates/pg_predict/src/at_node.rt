//! The findings at a node, one by one, and how many there are.
//!
//! They come in the same way as all findings of a grammar (`way.rt`), and none is kept: a choice can break a condition for every two of
//! its alternatives.
ghost use Rattle.std.specs.Prelude.{◌≡◌, ◌<◌, ◌∷◌, [], map, length, MatchOption};
ghost use Rattle.std.specs.Option.{IfNone};
ghost use Rattle.pg_predict_conditions.specs.Judged.{noted_grammar};
ghost use Rattle.pg_predict_conditions.specs.Violations.{counted};
ghost use Rattle.pg_predict.specs.Refusals.{kinds_at};
ghost use Rattle.pg_predict.specs.Texts.{IsSource};

use crate::asking::{Asking, find_next};
use crate::finding::Finding;
use crate::places::{Place, place_of};
use crate::source::Source;
use pg_grammar_form::{Node, NodeId};
use std::marker::Model;

/// The findings at a node that are still to come, in the order of conditions and alternatives. Contracts see it as their list. It allocates no memory.
#[derive(Drop)]
pub struct FindingsAt<'r> {
    source: &'r Source,
    place: Place,
    form: &'r Node,
    asking: Asking,
}

impl<'r> Model for FindingsAt<'r> {
    ghost use Rattle.std.specs.Prelude.{List};
    ghost use Rattle.pg_predict.specs.Found.{Found, IsThere, coming_at};

    ghost Value = { List Found };

    ghost view = { λ findings. coming_at findings.source.now findings.place.node findings.form.now findings.asking };

    ghost invariant = { λ findings. IsThere findings.source.now findings.place };
}

impl<'r> FindingsAt<'r> {
    ghost use Rattle.pg_predict.specs.Found.{found_by};
    ghost use Rattle.pg_predict.specs.Refusals.{violations_at};

    /// All findings at a node.
    pub(crate) fn of(source: &'r Source, node: NodeId) -> FindingsAt<'r>
        requires source { IsSource source.now }
        requires node { node < length source.now.grammar.nodes }
        ensures { result ≡ map (found_by source.now) (violations_at node (noted_grammar source.now.grammar source.now.judge)) }
    {
        let place = place_of(source.grammar.rules(), node);
        let form = source.grammar.node(node);
        let asking = Asking::first();
        FindingsAt {
            source,
            place,
            form,
            asking,
        }
    }

    /// The next finding, or none if none is left (ours). It allocates no memory.
    pub fn next(&mut self) -> Option<Finding<'r>>
        ensures first { MatchOption result (self.old ≡ []) (λ finding. self.old ≡ finding ∷ self.new) }
        ensures ends { IfNone result (self.new ≡ []) }
    {
        let (source, place) = (self.source, self.place);
        let mut asking = self.asking;
        match find_next(&source.judge, place.node, self.form, &mut asking) {
            Some(kind) => {
                self.asking = asking;
                Some(Finding::new(source, place, kind))
            }
            None => None,
        }
    }
}

/// The number of findings at a node.
pub(crate) fn count_kinds(source: &Source, node: NodeId) -> usize
    requires source { IsSource source.now }
    requires node { node < length source.now.grammar.nodes }
    ensures { result ≡ counted (kinds_at node (noted_grammar source.now.grammar source.now.judge)) }
{
    let form = source.grammar.node(node);
    let mut asking = Asking::first();
    let mut count: usize = 0;
    'more: while let Some(_) = find_next(&source.judge, node, form, &mut asking) {
        count = count.saturating_add(1);
    }
    count
}
