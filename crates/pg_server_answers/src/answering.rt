//! The answer to a question about a document.

use crate::asking::{Answer, Document, Question};
use crate::changing::changes;
use crate::completing::completed;
use crate::hovering::hovered;
use crate::outline::outline;
use crate::params::{position_of, range_of};
use crate::places::{definition, references};
use crate::renaming::{prepared, rename};
use crate::sheet::{MOST, Sheet};
use crate::signing::signed;
use pg_file_items::Span;
use pg_pred::Registry;
use pg_server_messages::ErrorCode;
use pg_server_positions::positions_of;
use pg_text::characters_of;
use serde_json::Value;
use std::alloc::{AllocError, Global};

/// What comes of a question about a document, given the request's parameters (the protocol's, 3.17): its result; `InvalidParams` if a position, a range or a new name
/// is missing, and `RequestFailed` if a name can't become the new one. Where nothing is to be said the result is null, or an empty list of items or offers.
/// The registry has the predicates and builders that the document may name. Fails where memory runs out.
pub fn answer_to(
    alloc: Global,
    registry: &Registry,
    document: Document<'_>,
    question: Question,
    params: &Value,
) -> Result<Answer, AllocError> {
    let characters = characters_of(alloc, document.text)?;
    let text = characters.as_slice();
    let found = answer_in(alloc, registry, document, text, question, params);
    drop(characters);
    found
}

/// As `answer_to`, given the document's characters.
fn answer_in(
    alloc: Global,
    registry: &Registry,
    document: Document<'_>,
    characters: &[char],
    question: Question,
    params: &Value,
) -> Result<Answer, AllocError> {
    let text = if characters.len() <= MOST {
        characters
    } else {
        &[]
    };
    let positions = positions_of(alloc, text, document.encoding)?;
    let sheet = Sheet {
        document,
        text,
        positions: positions.as_slice(),
    };
    let found = answer_on(alloc, registry, sheet, question, params);
    drop(positions);
    found
}

/// As `answer_to`, given the positions of the document's places.
fn answer_on(
    alloc: Global,
    registry: &Registry,
    sheet: Sheet,
    question: Question,
    params: &Value,
) -> Result<Answer, AllocError> {
    match question {
        Question::Symbols => granted(outline(alloc, sheet)),
        Question::Changes => changes_in(alloc, registry, sheet, params),
        Question::Definition
        | Question::References
        | Question::PrepareRename
        | Question::Rename
        | Question::Completion
        | Question::Signature
        | Question::Hover => asked_at(alloc, registry, sheet, question, params),
    }
}

/// The answer with this result.
fn granted(found: Result<Value, AllocError>) -> Result<Answer, AllocError> {
    match found {
        Ok(value) => Ok(Answer::Granted(value)),
        Err(error) => Err(error),
    }
}

/// The changes that cure the findings in the parameters' range.
fn changes_in(
    alloc: Global,
    registry: &Registry,
    sheet: Sheet,
    params: &Value,
) -> Result<Answer, AllocError> {
    match range_of(params) {
        Some((start, end)) => {
            let range = Span {
                first: sheet.place(start),
                after: sheet.place(end),
            };
            granted(changes(alloc, registry, sheet, range, params))
        }
        None => Ok(Answer::Refused(ErrorCode::InvalidParams, "the parameters have no range")),
    }
}

/// As `answer_to`, at the parameters' position.
fn asked_at(
    alloc: Global,
    registry: &Registry,
    sheet: Sheet,
    question: Question,
    params: &Value,
) -> Result<Answer, AllocError> {
    let Some(position) = position_of(params) else {
        return Ok(Answer::Refused(ErrorCode::InvalidParams, "the parameters have no position"));
    };
    let place = sheet.place(position);
    if question == Question::Rename {
        rename(alloc, registry, sheet, place, params)
    } else {
        granted(result_at(alloc, registry, sheet, question, place, params))
    }
}

/// The result at a place; null for a question that is about none.
fn result_at(
    alloc: Global,
    registry: &Registry,
    sheet: Sheet,
    question: Question,
    place: usize,
    params: &Value,
) -> Result<Value, AllocError> {
    match question {
        Question::Definition => definition(alloc, sheet, place),
        Question::References => references(alloc, sheet, place, params),
        Question::PrepareRename => prepared(alloc, sheet, place),
        Question::Completion => completed(alloc, sheet, place),
        Question::Signature => signed(alloc, sheet, place),
        Question::Hover => hovered(alloc, registry, sheet, place),
        Question::Rename | Question::Symbols | Question::Changes => Ok(Value::Null),
    }
}
