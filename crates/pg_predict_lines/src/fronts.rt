//! The fronts of lines: a place in a file, or the file's name.
ghost use Rattle.std.specs.Prelude.{◌≡◌, ◌++◌, ℕ, codes, IfOk};
ghost use Rattle.pg_text_pieces.specs.Writing.{pieces_bytes};
ghost use Rattle.pg_predict_lines.specs.Lines.{front_text, front_at};

use pg_file_items::Span;
use pg_grammar_form::NodeId;
use pg_text::Pos;
use pg_text_excerpt::positions;
use pg_text_pieces::Piece;
use std::alloc::{AllocError, Global};

/// What stands in front of a line.
#[derive(Clone, Copy)]
pub enum Front<'f> {
    /// Nothing.
    Nothing,
    /// The name of a file.
    File(&'f str),
    /// The name of a file, and a line and a column of it.
    Place(&'f str, Pos),
}

/// The pieces of what stands in front of a line: `FILE: ` or `FILE:LINE:COLUMN: ` (ours).
pub fn front_pieces<'f>(front: &Front<'f>) -> [Piece<'f>; 6]
    ensures { pieces_bytes result ≡ front_text front.now }
{
    let nothing = Piece::Text("");
    match front {
        Front::Nothing => [nothing, nothing, nothing, nothing, nothing, nothing],
        Front::File(name) => {
            [
                Piece::Text(name),
                Piece::Text(": "),
                nothing,
                nothing,
                nothing,
                nothing,
            ]
        }
        Front::Place(name, position) => [
            Piece::Text(name),
            Piece::Text(":"),
            Piece::Number(position.line as usize),
            Piece::Text(":"),
            Piece::Number(position.column as usize),
            Piece::Text(": "),
        ],
    }
}

/// The fronts of the findings of a file's nodes.
#[derive(Drop)]
pub struct Fronts<'f> {
    name: &'f str,
    /// The line and the column of each place of the file; empty if no places are wanted.
    positions: Vec<Pos>,
    /// For each node the characters that its form has in the file.
    spans: &'f [Span],
    /// The front of the findings of a node without a place.
    otherwise: Front<'f>,
}

impl<'f> Fronts<'f> {
    /// The file's name as the front of each finding (ours).
    pub fn of_names(alloc: Global, name: &'f str) -> Fronts<'f>
        ensures { (p : ℕ) → front_text (front_at result p) ≡ name.now ++ codes ": " }
    {
        Fronts {
            name,
            positions: Vec::new(alloc),
            spans: &[],
            otherwise: Front::File(name),
        }
    }

    /// The place of its node as the front of each finding. The file has this name and text, and `spans` has the characters of each node's form (ours).
    pub fn of_places(
        alloc: Global,
        name: &'f str,
        text: &[char],
        spans: &'f [Span],
    ) -> Result<Fronts<'f>, AllocError>
        ensures name { IfOk result (λ fronts. fronts.name.now ≡ name.now) }
        ensures spans { IfOk result (λ fronts. fronts.spans.now ≡ spans.now) }
        ensures otherwise { IfOk result (λ fronts. fronts.otherwise ≡ Front.Nothing) }
    {
        let positions = positions(alloc, text)?;
        Ok(Fronts {
            name,
            positions,
            spans,
            otherwise: Front::Nothing,
        })
    }

    /// The front of the findings of a node.
    pub(crate) fn front(&self, node: NodeId) -> Front<'f>
        ensures { result ≡ front_at self.now node }
    {
        match self.spans.get(node.index()) {
            Some(span) => match self.positions.get(span.first) {
                Some(position) => Front::Place(self.name, *position),
                None => self.otherwise,
            },
            None => self.otherwise,
        }
    }
}
