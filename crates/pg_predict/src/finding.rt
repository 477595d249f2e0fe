//! A finding: what is wrong at a node, in one value, which can be printed, explained or listed.
ghost use Rattle.std.specs.Prelude.{◌≡◌, ◌++◌, codes, decimal, false, is_err, OnOk, OnErr};
ghost use Rattle.pg_text_pieces.specs.Writing.{Puts, pieces_bytes};
ghost use Rattle.pg_tree.specs.Bytes.{AppendsPrefix};
ghost use Rattle.pg_predict.specs.Findings.{code_text, line_of};
ghost use Rattle.pg_predict.specs.Texts.{name_at};

use crate::places::Place;
use crate::source::Source;
use crate::violation::code;
use pg_grammar_form::NodeId;
use pg_predict_conditions::ViolationKind;
use pg_text_pieces::{Piece, Stopped, put, put_pieces, show_pieces};
use pg_tree::Meter;
use std::fmt;
use std::io::Write;
use std::marker::Model;

/// A finding: which condition is broken, how, and where its node stands. Contracts see it as the violation with its text.
/// It prints as its line, without a line feed.
#[derive(Drop)]
pub struct Finding<'r> {
    source: &'r Source,
    place: Place,
    kind: ViolationKind<usize>,
}

impl<'r> Model for Finding<'r> {
    ghost use Rattle.pg_predict.specs.Found.{Found, IsThere, found_there};

    ghost Value = { Found };

    ghost view = { λ finding. found_there finding.source.now finding.place finding.kind };

    ghost invariant = { λ finding. IsThere finding.source.now finding.place };
}

impl<'r> Finding<'r> {
    ghost use Rattle.pg_predict.specs.Found.{IsThere, found_there};

    /// The finding of a kind at a place.
    pub(crate) fn new(source: &'r Source, place: Place, kind: ViolationKind<usize>) -> Finding<'r>
        requires { IsThere source.now place }
        ensures { result ≡ found_there source.now place kind }
    {
        Finding {
            source,
            place,
            kind,
        }
    }

    /// The node (ours). It allocates no memory.
    pub fn node(&self) -> NodeId
        ensures { result ≡ self.now.violation.node }
    {
        self.place.node
    }

    /// How a condition is broken there, with its alternatives and the numbers of its starts (ours). A start has
    /// its number in the sets. The operator start, which needn't be in them, has the number after all of those.
    pub fn kind(&self) -> &ViolationKind<usize>
        ensures { result.now ≡ self.now.violation.kind }
    {
        &self.kind
    }

    /// That kind, moved out (ours). It allocates no memory.
    pub fn into_kind(self) -> ViolationKind<usize>
        ensures { result ≡ self.entry.violation.kind }
    {
        let Finding { kind: handed, .. } = self;
        handed
    }

    /// The number of the rule whose body has the node, from 0 in file order (ours).
    pub fn rule(&self) -> usize
        ensures { result ≡ self.now.finding.rule }
    {
        self.place.rule
    }

    /// The node's number in that body, from 1, in preorder (ours).
    pub fn number(&self) -> usize
        ensures { result ≡ self.now.finding.node }
    {
        self.place.number
    }

    /// The code of the condition, C1 to C11 (ours).
    pub fn code(&self) -> &'static str
        ensures { result.now ≡ code_text self.now.finding.number }
    {
        code(&self.kind)
    }

    /// Appends its line, with a line feed, to a buffer, which is written to the writer when it is full (ours). The writer must not have
    /// failed yet. The only error is that it fails, after a prefix of what it was to get. It allocates no memory.
    pub fn put<W: Write>(&self, buffer: &mut Vec<u8>, writer: &mut Meter<W>) -> Result<(), Stopped>
        requires fresh { writer.old.failed ≡ false }
        ensures failed { writer.new.failed ≡ is_err result }
        ensures ok { OnOk result (Puts (W.contents writer.old.inner) buffer.old.items (W.contents writer.new.inner) buffer.new.items (line_of self.now.finding)) }
        ensures prefix { OnErr result (AppendsPrefix (W.contents writer.old.inner) (W.contents writer.new.inner) (buffer.old.items ++ line_of self.now.finding)) }
    {
        let front = front(self.source, &self.place, code(&self.kind));
        let words = self.source.texts.words(&self.kind);
        put_pieces(&front, buffer, writer)?;
        put_pieces(&words, buffer, writer)?;
        put(b"\n", buffer, writer)?;
        Ok(())
    }
}

/// The text before the words of a finding.
fn front<'s>(source: &'s Source, place: &Place, code: &'s str) -> [Piece<'s>; 6]
    ensures { pieces_bytes result ≡ name_at source.now.texts place.now.rule ++ (codes ":" ++ (decimal place.now.number ++ (codes ": " ++ (code.now ++ codes " ")))) }
{
    [
        Piece::Text(source.texts.name(place.rule)),
        Piece::Text(":"),
        Piece::Number(place.number),
        Piece::Text(": "),
        Piece::Text(code),
        Piece::Text(" "),
    ]
}

impl<'r> fmt::Display for Finding<'r> {
    ghost use Rattle.std.specs.Prelude.{Some};

    ghost output = { λ found. Some found.finding.line };

    fn fmt<W: fmt::Write>(&self, f: &mut fmt::Formatter<W>) -> fmt::Result {
        let front = front(self.source, &self.place, code(&self.kind));
        let words = self.source.texts.words(&self.kind);
        show_pieces(&front, f)?;
        show_pieces(&words, f)
    }
}
