//! The fields that explain a finding at the end of its line: a change that cures it, a text that shows it, and what it is in words.
//!
//! They come after the fields that every finding has. Other crates find what they say; here they are put together.

use crate::fields::push_text;
use crate::spots::{Spots, push_ends};
use pg_file_items::Span;
use pg_grammar_form::NodeId;
use pg_predict::{Finding, ViolationKind, condition_number};
use pg_predict_lines::{Named, alternatives_of, starts_of};
use std::alloc::{AllocError, Global};

/// The explanation of the finding of a kind at a node.
#[derive(Drop)]
pub struct ToldFinding {
    node: NodeId,
    /// The number of the condition that is broken, and what the finding names.
    condition: u8,
    alternatives: Named,
    starts: Named,
    /// The fields, each after a comma.
    fields: String,
}

impl ToldFinding {
    /// Makes these fields the explanation of the finding of a kind at a node.
    pub fn of(node: NodeId, kind: &ViolationKind<usize>, fields: String) -> ToldFinding {
        ToldFinding {
            node,
            condition: condition_number(kind),
            alternatives: alternatives_of(kind),
            starts: starts_of(kind),
            fields,
        }
    }

    /// Whether it explains this finding.
    fn is_of(&self, finding: &Finding) -> bool {
        let kind = finding.kind();
        self.node == finding.node()
            && self.condition == condition_number(kind)
            && are_same(self.alternatives, alternatives_of(kind))
            && are_same(self.starts, starts_of(kind))
    }
}

/// Appends the change: the characters of the file that it replaces, the new text, and words about it (ours). Fails where memory runs out.
pub fn push_help(
    alloc: Global,
    fields: &mut String,
    spots: &Spots,
    span: Span,
    text: &str,
    words: &str,
) -> Result<(), AllocError> {
    fields.push_str(",\"help\":{")?;
    push_ends(alloc, fields, spots, span)?;
    push_text(alloc, fields, ",\"text\":", text)?;
    push_text(alloc, fields, ",\"words\":", words)?;
    fields.push_str("}")
}

/// Appends the text that shows the finding, and what is answered to it (ours). Fails where memory runs out.
pub fn push_witness(
    alloc: Global,
    fields: &mut String,
    text: &str,
    answer: &str,
) -> Result<(), AllocError> {
    push_text(alloc, fields, ",\"witness\":{\"text\":", text)?;
    push_text(alloc, fields, ",\"answer\":", answer)?;
    fields.push_str("}")
}

/// Appends what the finding is in words (ours). Fails where memory runs out.
pub fn push_words(alloc: Global, fields: &mut String, words: &str) -> Result<(), AllocError> {
    push_text(alloc, fields, ",\"words\":", words)
}

/// The fields that explain a finding, if the first of these explanations is about it, and the explanations that are left. The explanations are in the order
/// of findings.
pub(crate) fn told_of<'t>(
    told: &'t [ToldFinding],
    finding: &Finding,
) -> (&'t str, &'t [ToldFinding]) {
    match told {
        [first, rest @ ..] if first.is_of(finding) => (first.fields.as_str(), rest),
        _ => ("", told),
    }
}

/// Whether both name the same numbers.
fn are_same(one: Named, other: Named) -> bool {
    match (one, other) {
        (Named::Nothing, Named::Nothing) => true,
        (Named::One(one), Named::One(other)) => one == other,
        (Named::Two(j, k), Named::Two(l, m)) => j == l && k == m,
        (Named::Nothing | Named::One(_) | Named::Two(_, _), _) => false,
    }
}
