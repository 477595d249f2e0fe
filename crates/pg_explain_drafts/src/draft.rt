//! The draft of a change: which characters of the file are replaced, and by what.
//!
//! Edits are kept in the order of their places, and new pieces go to the edit that was begun last. An edit that begins before the end of the one before it is
//! left out. A draft remembers if memory ran out for it, and `push_draft` then fails. So the calls that write can't fail.

use crate::change::Change;
use crate::changed::Changed;
use pg_file_items::Span;
use std::alloc::{AllocError, Global};

/// A piece of an edit.
#[derive(Clone, Copy)]
enum Piece {
    /// Characters of the file.
    Kept(Span),
    /// Words.
    New(&'static str),
    /// A character.
    Written(char),
}

/// The characters that an edit replaces, none where it only inserts, and the range of the pieces that replace them.
#[derive(Clone, Copy)]
struct Edit {
    span: Span,
    first: usize,
    after: usize,
}

/// The draft of a change.
#[derive(Drop)]
pub struct Draft {
    /// The kind of change.
    pub change: Change,
    /// Whether it may add, drop or regroup trees.
    pub tree_changes: bool,
    /// The rules that it removes because nothing uses them any more, by their bodies.
    pub taken_out: Vec<usize>,
    edits: Vec<Edit>,
    /// The number of the edit that was begun last.
    begun: usize,
    pieces: Vec<Piece>,
    /// Whether memory ran out for a part of it.
    is_short: bool,
}

impl Draft {
    /// A draft without edits.
    pub fn new(alloc: Global, change: Change, tree_changes: bool) -> Draft {
        Draft {
            change,
            tree_changes,
            taken_out: Vec::new(alloc),
            edits: Vec::new(alloc),
            begun: 0,
            pieces: Vec::new(alloc),
            is_short: false,
        }
    }

    /// Begins an edit: what is written from now on replaces the characters of the span.
    pub fn replace(&mut self, span: Span) {
        let first = self.pieces.len();
        let place = place_in(self.edits.as_slice(), span.first);
        if place <= self.edits.len() {
            let edit = Edit {
                span,
                first,
                after: first,
            };
            self.begun = place;
            let inserted = self.edits.insert(place, edit);
            self.note(inserted.is_err());
        }
    }

    /// Writes characters of the file.
    pub fn keep(&mut self, span: Span) {
        self.push(Piece::Kept(span));
    }

    /// Writes words.
    pub fn write(&mut self, words: &'static str) {
        self.push(Piece::New(words));
    }

    /// Writes new characters.
    pub fn write_characters(&mut self, characters: &[char]) {
        for c in characters {
            self.push(Piece::Written(*c));
        }
    }

    /// Records that a rule is removed, by its body.
    pub(crate) fn push_taken_out(&mut self, body: usize) {
        let pushed = self.taken_out.push(body);
        self.note(pushed.is_err());
    }

    /// Adds a piece to the edit that was begun last.
    fn push(&mut self, piece: Piece) {
        let pushed = self.pieces.push(piece);
        self.note(pushed.is_err());
        let after = self.pieces.len();
        if let Some(edit) = self.edits.get_mut(self.begun) {
            edit.after = after;
        }
    }

    /// Fails where memory ran out while the draft was written.
    pub fn whole(&self) -> Result<(), AllocError> {
        if self.is_short {
            return Err(AllocError);
        }
        Ok(())
    }

    /// Remembers whether memory ran out.
    fn note(&mut self, has_run_out: bool) {
        self.is_short = self.is_short || has_run_out;
    }

    /// The text of the file, changed. Fails where memory runs out.
    pub fn applied(&self, alloc: Global, text: &[char]) -> Result<Changed, AllocError> {
        let mut changed = Changed::new(alloc);
        let mut first = 0;
        for edit in &self.edits {
            let after = edit.span.first;
            if first <= after {
                changed.keep(text, Span { first, after })?;
                self.write_edit(text, *edit, &mut changed)?;
                first = edit.span.after;
            }
        }
        let after = text.len();
        changed.keep(text, Span { first, after })?;
        Ok(changed)
    }

    /// Writes the pieces of an edit.
    fn write_edit(
        &self,
        text: &[char],
        edit: Edit,
        changed: &mut Changed,
    ) -> Result<(), AllocError> {
        for number in edit.first..edit.after {
            match self.pieces.get(number) {
                Some(Piece::Kept(span)) => changed.keep(text, *span)?,
                Some(Piece::New(words)) => changed.push_words(words)?,
                Some(Piece::Written(c)) => changed.push(*c, None)?,
                None => {}
            }
        }
        Ok(())
    }
}

/// How many of these edits begin at a place or before it.
fn place_in(edits: &[Edit], first: usize) -> usize {
    let mut count: usize = 0;
    for edit in edits {
        if edit.span.first <= first {
            count = count.saturating_add(1);
        }
    }
    count
}

/// Adds the draft to the list if it has an edit. Fails where memory runs out, now or while the draft was written.
pub fn push_draft(drafts: &mut Vec<Draft>, draft: Draft) -> Result<(), AllocError> {
    draft.whole()?;
    if !draft.edits.is_empty() {
        drafts.push(draft)?;
    }
    Ok(())
}
