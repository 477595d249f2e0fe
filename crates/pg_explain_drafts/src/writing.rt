//! The calls that write drafts: words around forms, lists of forms, and literals.

use crate::draft::Draft;
use crate::forms::Forms;
use pg_file_items::Span;

impl Draft {
    /// Begins an insertion before the character at this place, and writes the words.
    pub fn put_in(&mut self, place: usize, words: &'static str) {
        let span = Span {
            first: place,
            after: place,
        };
        self.replace(span);
        self.write(words);
    }

    /// Inserts words around a span.
    pub fn wrap(&mut self, span: Span, before: &'static str, after: &'static str) {
        self.put_in(span.first, before);
        self.put_in(span.after, after);
    }

    /// Writes a form of one value. The words before the value end with the opening parenthesis.
    pub fn write_around(&mut self, words: &'static str, value: Span) {
        self.write(words);
        self.keep(value);
        self.write(")");
    }

    /// Begins a form of this many values, or no form if there is just one. The words end with the opening parenthesis.
    pub fn open_group(&mut self, words: &'static str, count: usize) {
        self.write(if count == 1 { "" } else { words });
    }

    /// Ends a form of this many values, or no form if there is just one.
    pub fn close_group(&mut self, count: usize) {
        self.write(if count == 1 { "" } else { ")" });
    }

    /// Writes the comma before a value, unless it is the first.
    pub fn write_comma(&mut self, is_first: bool) {
        self.write(if is_first { "" } else { ", " });
    }

    /// Writes forms of the file inside a form with these words, or a single form by itself.
    pub fn write_group(&mut self, forms: &Forms, words: &'static str, parts: &[usize]) {
        self.open_group(words, parts.len());
        self.write_list(forms, parts);
        self.close_group(parts.len());
    }

    /// Writes forms of the file with commas between them.
    pub fn write_list(&mut self, forms: &Forms, parts: &[usize]) {
        let mut is_first = true;
        for part in parts {
            self.write_comma(is_first);
            self.keep(forms.span(*part));
            is_first = false;
        }
    }

    /// Writes a literal: these characters in quotes, with the escapes they need.
    pub fn write_literal(&mut self, characters: &[char]) {
        self.write("\"");
        for c in characters {
            match escaped(*c) {
                Some(escape) => self.write(escape),
                None => self.write_characters(&[*c]),
            }
        }
        self.write("\"");
    }
}

/// The escape of a character that can't stand in a literal by itself.
fn escaped(c: char) -> Option<&'static str> {
    match c {
        '"' => Some("\\\""),
        '\\' => Some("\\\\"),
        '\n' => Some("\\n"),
        '\t' => Some("\\t"),
        '\r' => Some("\\r"),
        _ => None,
    }
}
