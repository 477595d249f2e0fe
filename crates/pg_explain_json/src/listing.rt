//! What the lines of a grammar's findings are made from.

use crate::fields::{escaped, quoted};
use crate::spots::{Spot, Spots};
use pg_file_items::Span;
use pg_grammar_form::NodeId;
use pg_predict::{Refused, Texts};
use pg_predict_lines::texts_of;
use std::alloc::{AllocError, Global};

/// A grammar's file, whose findings are listed.
#[derive(Clone, Copy)]
pub struct ListedFile<'l> {
    /// The file's name.
    pub name: &'l str,
    /// Its characters.
    pub text: &'l [char],
    /// For each node, the characters of the form that was written for it.
    pub spans: &'l [Span],
}

/// The name of a grammar's file, and the words for its rules and starts.
#[derive(Drop)]
pub(crate) struct Listing<'l> {
    /// The file's name, in double quotes.
    pub(crate) file: String,
    /// The names of rules, and starts in words, escaped for JSON.
    pub(crate) texts: Texts,
    /// Where the file's characters stand.
    spots: Spots,
    /// For each node, the characters of the form that was written for it.
    spans: &'l [Span],
}

impl<'l> Listing<'l> {
    /// Works out what is needed of a refused grammar and of its file.
    pub(crate) fn of(
        alloc: Global,
        refused: &Refused,
        listed: ListedFile<'l>,
    ) -> Result<Listing<'l>, AllocError> {
        let file = quoted(alloc, listed.name)?;
        let texts = escaped_texts(alloc, refused)?;
        let spots = Spots::of(alloc, listed.text)?;
        Ok(Listing {
            file,
            texts,
            spots,
            spans: listed.spans,
        })
    }

    /// Where the first and the last character of a node's form stand.
    pub(crate) fn ends(&self, node: NodeId) -> (Spot, Spot) {
        match self.spans.get(node.index()) {
            Some(span) => self.spots.ends(*span),
            None => (self.spots.spot(0), self.spots.spot(0)),
        }
    }
}

/// The names of rules, and starts in words, escaped for JSON.
fn escaped_texts(alloc: Global, refused: &Refused) -> Result<Texts, AllocError> {
    let plain = texts_of(alloc, refused)?;
    let names = all_escaped(alloc, &plain.names)?;
    let listed = all_escaped(alloc, &plain.listed)?;
    let own = escaped(alloc, plain.own.as_str())?;
    Ok(Texts { names, listed, own })
}

fn all_escaped(alloc: Global, texts: &[String]) -> Result<Vec<String>, AllocError> {
    let mut all = Vec::new(alloc);
    for text in texts {
        all.push(escaped(alloc, text.as_str())?)?;
    }
    Ok(all)
}
