//! The cure of a finding: of the changes that remove it, the one that keeps the language best.

use crate::finding::{Found, found_at, trouble_of};
use crate::items::changed_items;
use crate::judging::{Judged, judge};
use crate::near::is_near;
use crate::source::{Bound, Source};
use pg_explain_changes::{Trouble, drafts};
use pg_explain_comparison::Kept;
use pg_explain_drafts::{Change, Changed, Draft, Forms};
use pg_grammar_form::NodeId;
use pg_predict::{Broken, ViolationKind, condition_number};
use pg_text::utf8;
use std::alloc::{AllocError, Global};

/// The most characters of a file in which a cure is sought.
const TEXT_LIMIT: usize = 20_000;

/// The most forms with findings in a file in which a cure is sought.
const FINDING_LIMIT: usize = 500;

/// A change of a grammar file that removes a finding.
#[derive(Drop)]
pub struct Cure {
    /// The kind of change.
    pub change: Change,
    /// Whether it may add, drop or regroup trees of texts that both grammars read.
    pub tree_changes: bool,
    /// The items of the changed file that are new or differ, each from its first token to its semicolon.
    pub items: Vec<String>,
    /// The rules that the change removes from the file because nothing uses them any more.
    pub taken_out: Vec<String>,
    /// Whether the changed grammar has no findings.
    pub accepted: bool,
    /// The findings that the changed grammar no longer has.
    pub gone: Vec<Broken>,
    /// What becomes of the language, as far as texts were tried.
    pub kept: Kept,
}

impl Cure {
    /// Whether the changed grammar no longer has the finding of this kind at a node.
    pub fn takes_away(&self, node: NodeId, kind: &ViolationKind<usize>) -> bool {
        let condition = condition_number(kind);
        self.gone
            .iter()
            .any(|gone| gone.node == node && gone.condition == condition)
    }
}

/// A cure of the finding at a node, if a change on the list is one (ours). With a cure, the changed file describes a grammar without a finding of the
/// condition at this form. Each finding that is left was there before, of the same condition at the same form of the same rule. Each rule that the change
/// touches is the rule of the finding, uses it or is used by it. If there are several cures, it is the first that keeps the language best by `Kept::rank`.
/// None is sought in a file of over 20,000 characters or with over 500 forms with findings, nor once the bound is used up. Fails where memory runs out.
pub fn find_cure(
    alloc: Global,
    source: &Source,
    node: NodeId,
    kind: &ViolationKind<usize>,
    bound: &mut Bound,
) -> Result<Option<Cure>, AllocError> {
    let (Some(span), Some(trouble)) = (source.spans.get(node.index()).copied(), trouble_of(kind))
    else {
        return Ok(None);
    };
    if source.text.len() > TEXT_LIMIT {
        return Ok(None);
    }
    if source.found.len() > FINDING_LIMIT || bound.is_used_up(source.text.len()) {
        return Ok(None);
    }
    let cured = found_at(node, span, condition_number(kind));
    cure_in(alloc, source, &cured, trouble, bound)
}

/// Seeks a cure in the file's items.
fn cure_in(
    alloc: Global,
    source: &Source,
    cured: &Found,
    trouble: Trouble,
    bound: &mut Bound,
) -> Result<Option<Cure>, AllocError> {
    let nullable = nullable_nodes(alloc, source)?;
    let forms = Forms::of(
        alloc,
        source.text,
        &source.syntax.lexemes,
        &source.syntax.items,
        source.spans,
        &nullable,
    )?;
    let Some(form) = forms.at(cured.span) else {
        return Ok(None);
    };
    let drafts = drafts(alloc, &forms, form, trouble)?;
    best_cure(alloc, source, &forms, form, cured, &drafts, bound)
}

/// For each node of the grammar, whether it can be empty.
fn nullable_nodes(alloc: Global, source: &Source) -> Result<Vec<bool>, AllocError> {
    let sets = source.refused.sets();
    let mut nullable = Vec::new(alloc);
    for node in 0..source.spans.len() {
        nullable.push(sets.nullable(NodeId::new(node)))?;
    }
    Ok(nullable)
}

/// The first of the cures among these drafts that keeps the language best.
fn best_cure(
    alloc: Global,
    source: &Source,
    forms: &Forms,
    form: usize,
    cured: &Found,
    drafts: &[Draft],
    bound: &mut Bound,
) -> Result<Option<Cure>, AllocError> {
    let mut best = None;
    for draft in drafts {
        if rank_of(&best) == 0 {
            break;
        }
        let changed = draft.applied(alloc, source.text)?;
        if !bound.spend(changed.text.len()) {
            break;
        }
        if is_near(alloc, forms, form, &changed)? {
            let found = cure_by(alloc, source, forms, cured, draft, &changed)?;
            if rank_of(&found) < rank_of(&best) {
                best = found;
            }
        }
    }
    Ok(best)
}

/// How well the language is kept, 0 being best.
fn rank_of(cure: &Option<Cure>) -> usize {
    match cure {
        Some(cure) => cure.kept.rank(),
        None => usize::MAX,
    }
}

/// The cure that a draft is, if it is one.
fn cure_by(
    alloc: Global,
    source: &Source,
    forms: &Forms,
    cured: &Found,
    draft: &Draft,
    changed: &Changed,
) -> Result<Option<Cure>, AllocError> {
    match judge(alloc, source, cured, changed)? {
        Some(judged) => Ok(Some(cure_of(alloc, forms, draft, changed, judged)?)),
        None => Ok(None),
    }
}

/// The cure for a change that was tried.
fn cure_of(
    alloc: Global,
    forms: &Forms,
    draft: &Draft,
    changed: &Changed,
    judged: Judged,
) -> Result<Cure, AllocError> {
    let items = changed_items(alloc, changed)?;
    let taken_out = names_of(alloc, forms, &draft.taken_out)?;
    let Judged {
        accepted,
        gone,
        kept,
    } = judged;
    Ok(Cure {
        change: draft.change,
        tree_changes: draft.tree_changes,
        items,
        taken_out,
        accepted,
        gone,
        kept,
    })
}

/// The names of the rules with these bodies.
fn names_of(alloc: Global, forms: &Forms, bodies: &[usize]) -> Result<Vec<String>, AllocError> {
    let mut names = Vec::new(alloc);
    for body in bodies {
        if let Some(rule) = forms.rule_with(*body) {
            names.push(utf8(alloc, rule.name)?)?;
        }
    }
    Ok(names)
}
