//! The findings of a refused grammar.

use crate::diagnosed::MOST;
use crate::diagnostic::{Diagnostic, Severity};
use crate::others::others_of;
use pg_file_items::Span;
use pg_grammar_form::NodeId;
use pg_predict::{Finding, Refused, Texts};
use pg_predict_lines::texts_of;
use pg_text_pieces::Piece;
use std::alloc::{AllocError, Global};

/// The findings of a grammar whose nodes have these spans in its file, the first `MOST` of them.
pub(crate) fn findings_told(
    alloc: Global,
    refused: &Refused,
    spans: &[Span],
) -> Result<Vec<Diagnostic>, AllocError> {
    let texts = texts_of(alloc, refused)?;
    let found = all_told(alloc, refused, spans, &texts);
    drop(texts);
    found
}

/// As `findings_told`, with the texts of rules and starts.
fn all_told(
    alloc: Global,
    refused: &Refused,
    spans: &[Span],
    texts: &Texts,
) -> Result<Vec<Diagnostic>, AllocError> {
    let mut found = Vec::new(alloc);
    let mut findings = refused.findings();
    for _ in 0..MOST {
        let Some(finding) = findings.next() else {
            break;
        };
        let diagnostic = finding_told(alloc, refused, spans, texts, &finding)?;
        found.push(diagnostic)?;
    }
    Ok(found)
}

/// The diagnostic of a finding.
fn finding_told(
    alloc: Global,
    refused: &Refused,
    spans: &[Span],
    texts: &Texts,
    finding: &Finding,
) -> Result<Diagnostic, AllocError> {
    let message = message_of(alloc, texts, finding)?;
    let others = others_of(alloc, refused, spans, texts, finding)?;
    Ok(Diagnostic {
        span: span_of(spans, finding.node()),
        severity: Severity::Error,
        code: Some(finding.code()),
        message,
        others,
    })
}

/// The code of a finding and its words.
fn message_of(alloc: Global, texts: &Texts, finding: &Finding) -> Result<String, AllocError> {
    let mut message = String::from_str(alloc, finding.code())?;
    message.push_str(" ")?;
    for piece in &texts.words(finding.kind()) {
        push_piece(alloc, &mut message, *piece)?;
    }
    Ok(message)
}

fn push_piece(alloc: Global, message: &mut String, piece: Piece) -> Result<(), AllocError> {
    match piece {
        Piece::Text(text) => message.push_str(text),
        Piece::Number(number) => {
            let digits = format!(in alloc; "{number}")?;
            message.push_str(digits.as_str())
        }
    }
}

/// The characters of the file that a node has; none at its beginning if there is no such node.
pub(crate) fn span_of(spans: &[Span], node: NodeId) -> Span {
    match spans.get(node.index()) {
        Some(span) => *span,
        None => Span { first: 0, after: 0 },
    }
}
