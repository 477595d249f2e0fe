//! The sections of an explanation.

use crate::causes::{Cause, causes_of};
use crate::findings::{head, told};
use crate::headlines::headline;
use pg_explain_context::{GrammarFile, Known};
use pg_explain_recipes::{Recipe, recipe_of};
use pg_grammar_form::NodeId;
use pg_predict::{Refused, ViolationKind};
use std::alloc::{AllocError, Global};

/// The section on findings at a node with a common cause.
#[derive(Drop)]
pub struct Section {
    pub node: NodeId,
    /// The first of the findings.
    pub kind: ViolationKind<usize>,
    /// Where it is, and its code: `RULE:NODE: C4`.
    pub head: String,
    /// What is wrong, in one line in the words of the file.
    pub words: String,
    /// The lines of the section. The first has the place, the code and those words.
    pub text: String,
    /// The recipe for the finding's shape, if there is one.
    pub recipe: Option<Recipe>,
}

/// The explanation of a grammar's findings.
#[derive(Drop)]
pub struct Explanation {
    pub sections: Vec<Section>,
    /// How many findings have no section.
    pub untold: usize,
}

/// Explains the findings at the nodes numbered from `from` up to, but not including, `to`. Findings with a common cause share a section, and there are at
/// most `most` sections, in the order of the findings; the rest is counted (ours). It takes the time of a check, and a time linear in the grammar for each
/// section. Fails where memory runs out.
pub fn explain_findings(
    alloc: Global,
    refused: &Refused,
    file: &GrammarFile,
    from: usize,
    to: usize,
    most: usize,
) -> Result<Explanation, AllocError> {
    let known = Known::of(alloc, refused, file)?;
    let explanation = explain_nodes(alloc, &known, refused, from, to, most);
    drop(known);
    explanation
}

/// As `explain_findings`, from what is known of the grammar.
fn explain_nodes(
    alloc: Global,
    known: &Known,
    refused: &Refused,
    from: usize,
    to: usize,
    most: usize,
) -> Result<Explanation, AllocError> {
    let mut sections = Vec::new(alloc);
    let mut untold: usize = 0;
    for number in from..to {
        let found = count_at(refused, number);
        if found > 0 {
            let told = push_node(alloc, &mut sections, known, refused, number, most)?;
            untold = untold.saturating_add(found.saturating_sub(told));
        }
    }
    Ok(Explanation { sections, untold })
}

/// How many findings there are at a node; 0 if there is no such node.
fn count_at(refused: &Refused, number: usize) -> usize {
    if number < refused.grammar().nodes().len() {
        refused.count_at(NodeId::new(number))
    } else {
        0
    }
}

/// Adds the sections on a node while there are fewer than `most`. Answers how many findings they cover.
fn push_node(
    alloc: Global,
    sections: &mut Vec<Section>,
    known: &Known,
    refused: &Refused,
    number: usize,
    most: usize,
) -> Result<usize, AllocError> {
    if number >= refused.grammar().nodes().len() || sections.len() >= most {
        return Ok(0);
    }
    let node = NodeId::new(number);
    let mut at_node = refused.findings_at(node);
    let causes = causes_of(alloc, known, node, &mut at_node)?;
    let mut count: usize = 0;
    for cause in causes {
        if sections.len() < most {
            count = count.saturating_add(cause.count);
            sections.push(section_of(alloc, known, node, cause)?)?;
        }
    }
    Ok(count)
}

/// The section on a cause.
fn section_of(
    alloc: Global,
    known: &Known,
    node: NodeId,
    cause: Cause,
) -> Result<Section, AllocError> {
    let head = head(alloc, known, node, &cause.kind)?;
    let words = headline(alloc, known, node, &cause.kind)?;
    let first = format!(in alloc; "{head} {words}\n")?;
    let text = told(alloc, known, node, &cause, first)?;
    let recipe = recipe_of(alloc, known, node, &cause.kind)?;
    let Cause { kind, .. } = cause;
    Ok(Section {
        node,
        kind,
        head,
        words,
        text,
        recipe,
    })
}
